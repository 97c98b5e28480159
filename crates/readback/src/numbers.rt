// Numbers: the numbers of a file's fields, and the request that they tell.
ghost use Rattle.std.specs.Prelude.{◌≡◌, T, pos, ◌-ℤ◌};
ghost use Rattle.fields.specs.Fields.{get_all, fit_all};
ghost use Rattle.chip.specs.Fields.{picture_fields};
ghost use Rattle.scaler.specs.Numbers.{centred_line};
ghost use Rattle.readback.specs.Reading.{standard_in, outlin_in, fal_in, answer_for};
ghost use Rattle.readback.specs.Told.{TellsRequest, told_picture};

use checks::check;
use chip::file::FILE_LENGTH;
use scaler::request::{PixelClocks, Request};
use steps::window::{centred_line, middle_clock};
use table::get_values;

// Where the numbers that tell the request stand in the table of fields. By place, since table and check have the
// numbers as one array.
const FISE: usize = 0;

const ADWHS: usize = 1;

const FAL: usize = 3;

const LAL: usize = 4;

const XOFS: usize = 6;

const XPIX: usize = 7;

const YOFSO: usize = 8;

const YPIX: usize = 10;

const HLEN: usize = 11;

const YSKIP: usize = 16;

// In the order of the table of fields, each in the bits of its field.
#[derive(Clone, Copy, Debug, PartialEq, Eq)]
pub struct Numbers {
    values: [u32; 17],
    pub ghost fit: { T (fit_all picture_fields values) },
}

impl Numbers {
    pub fn in_file(file: &[u8; FILE_LENGTH]) -> Numbers
        ensures { result.values ≡ get_all file.now picture_fields }
    {
        Numbers {
            values: get_values(file),
        }
    }

    // FISE is 1 at 60 Hz, which is standard 0.
    fn standard(&self) -> u8
        ensures { result ≡ standard_in self.now.values }
    {
        (1 - self.values[FISE]) as u8
    }

    fn outlin(&self) -> u16
        ensures { result ≡ outlin_in self.now.values }
    {
        self.values[LAL].saturating_sub(self.values[FAL]) as u16
    }

    // How far the first line is from that of a centred picture.
    fn offset(&self) -> i64
        ensures { let vs = self.now.values in
            result ≡ pos (fal_in vs) -ℤ centred_line (standard_in vs) (outlin_in vs) }
    {
        (self.values[FAL] as i64) - centred_line(self.standard(), self.outlin())
    }

    // The one request that the numbers can come from; none where its offset fits no request.
    fn request(&self) -> Option<Request>
        ensures { TellsRequest self.now.values result }
    {
        let offset = i8::try_from(self.offset()).ok()?;
        let standard = self.standard();
        let middle = middle_clock(standard) as u32;
        Some(Request {
            standard,
            inpix: 2 * (self.values[XPIX] as u16),
            inlin: self.values[YPIX] as u16,
            inppl: (self.values[HLEN] as u16) + 1,
            outpix: middle.saturating_sub(self.values[ADWHS]) as u16,
            outlin: self.outlin(),
            offset,
            yskip: self.values[YSKIP] as u16,
            xofs: PixelClocks(self.values[XOFS] as u16),
            yofso: self.values[YOFSO] as u16,
        })
    }

    // The request, if it is accepted and has every one of the numbers; else the file is no picture's.
    pub fn picture(&self) -> Option<Request>
        ensures { told_picture result ≡ answer_for self.now.values }
    {
        let request = self.request()?;
        let fields = check(request).ok()?;
        if self.values == <[u32; 17]>::from(fields) {
            Some(request)
        } else {
            None
        }
    }
}
