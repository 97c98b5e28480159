// Request, what is wanted; Fields, the numbers that the chip's fields are to hold, and all of them as one array.
ghost use Rattle.std.specs.Prelude.{◌≡◌};
ghost use Rattle.scaler.specs.Answer.{values_of};

// A count of pixel clocks.
#[derive(Clone, Copy, Debug, PartialEq, Eq)]
pub struct PixelClocks(pub u16);

// A count of encoder clocks, two to an output pixel.
#[derive(Clone, Copy, Debug, PartialEq, Eq)]
pub struct EncoderClocks(pub u16);

// A wanted picture, with the paper's names.
#[derive(Clone, Copy, Debug, PartialEq, Eq)]
pub struct Request {
    // 0 is 60 Hz, 1 is 50 Hz. A request may come with any byte here, and is then refused.
    pub standard: u8,
    // The source: pixels a line, lines, and pixel clocks a line.
    pub inpix: u16,
    pub inlin: u16,
    pub inppl: u16,
    // The picture on the monitor: pixels a line, and lines a field.
    pub outpix: u16,
    pub outlin: u16,
    // How far the picture is moved down, or up where negative.
    pub offset: i8,
    // How much of the vertical filter is used.
    pub yskip: u16,
    // Where the source's picture begins.
    pub xofs: PixelClocks,
    pub yofso: u16,
}

// The fields, in the order of document 01's table.
#[derive(Clone, Copy, Debug, PartialEq, Eq)]
pub struct Fields {
    pub fise: u8,
    pub adwhs: EncoderClocks,
    pub adwhe: EncoderClocks,
    pub fal: u16,
    pub lal: u16,
    pub pcl: u32,
    pub xofs: PixelClocks,
    pub xpix: u16,
    pub yofso: u16,
    pub yofse: u16,
    pub ypix: u16,
    pub hlen: PixelClocks,
    pub xinc: u16,
    pub yinc: u16,
    pub yiwgto: u16,
    pub yiwgte: u16,
    pub yskip: u16,
}

// The numbers as one array, in the same order.
impl From<Fields> for [u32; 17] {
    ghost from_gives = { λ fields values. values ≡ values_of fields };

    #[tactic(auto, unfolding(crate::specs::Answer::values_of))]
    fn from(fields: Fields) -> [u32; 17] {
        [
            fields.fise as u32,
            fields.adwhs.0 as u32,
            fields.adwhe.0 as u32,
            fields.fal as u32,
            fields.lal as u32,
            fields.pcl,
            fields.xofs.0 as u32,
            fields.xpix as u32,
            fields.yofso as u32,
            fields.yofse as u32,
            fields.ypix as u32,
            fields.hlen.0 as u32,
            fields.xinc as u32,
            fields.yinc as u32,
            fields.yiwgto as u32,
            fields.yiwgte as u32,
            fields.yskip as u32,
        ]
    }
}
