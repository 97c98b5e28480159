// put_values and get_values: a number for each of the picture's fields, in this order, put into a lent file
// or got from it. Leaves for other crates: the file must have its 256 bytes. Each field is named once, by
// where its bits stand, so that both go to the same bits.
#![tactic(auto, unfolding(chip::specs::Fields::picture_fields, fields::specs::Fields::get_all, fields::specs::Fields::put_all))]

ghost use Rattle.std.specs.Prelude.{◌≡◌, length};
ghost use Rattle.fields.specs.Fields.{get_all, put_all};
ghost use Rattle.chip.specs.Fields.{picture_fields};

use fields::field::{Bits, Field, Split, Three};

const FISE: Bits = Bits(0x61, 0, 1);

const ADWHS: Split = Split(0x70, 0x72, 0, 3);

const ADWHE: Split = Split(0x71, 0x72, 4, 3);

const FAL: Split = Split(0x7A, 0x7C, 4, 1);

const LAL: Split = Split(0x7B, 0x7C, 6, 1);

const PCL: Three = Three(0x81, 0x82, 0x83);

const XOFS: Split = Split(0x90, 0x94, 0, 2);

const XPIX: Split = Split(0x91, 0x94, 2, 2);

const YOFSO: Split = Split(0x92, 0x94, 4, 2);

const YOFSE: Split = Split(0x93, 0x94, 6, 2);

const YPIX: Split = Split(0x95, 0x96, 0, 2);

// Three bits at 99h, as the printed map names them.
const HLEN: Split = Split(0x98, 0x99, 0, 3);

const XINC: Split = Split(0x9A, 0x9C, 0, 4);

const YINC: Split = Split(0x9B, 0x9C, 4, 4);

const YIWGTO: Split = Split(0x9D, 0x9F, 0, 4);

const YIWGTE: Split = Split(0x9E, 0x9F, 4, 4);

const YSKIP: Split = Split(0xA0, 0xA1, 0, 4);

// Every number into its field. By place, since a pattern of seventeen names says the same in twice the lines. The
// file is a slice, as `Field` asks for one.
pub fn put_values(file: &mut [u8], values: &[u32; 17])
    requires { length file.old ≡ 256 }
    ensures { file.new ≡ put_all file.old picture_fields values.now }
{
    FISE.put(file, values[0]);
    ADWHS.put(file, values[1]);
    ADWHE.put(file, values[2]);
    FAL.put(file, values[3]);
    LAL.put(file, values[4]);
    PCL.put(file, values[5]);
    XOFS.put(file, values[6]);
    XPIX.put(file, values[7]);
    YOFSO.put(file, values[8]);
    YOFSE.put(file, values[9]);
    YPIX.put(file, values[10]);
    HLEN.put(file, values[11]);
    XINC.put(file, values[12]);
    YINC.put(file, values[13]);
    YIWGTO.put(file, values[14]);
    YIWGTE.put(file, values[15]);
    YSKIP.put(file, values[16]);
}

// The number of every field.
pub fn get_values(file: &[u8; 256]) -> [u32; 17]
    ensures { result ≡ get_all file.now picture_fields }
{
    [
        FISE.get(file),
        ADWHS.get(file),
        ADWHE.get(file),
        FAL.get(file),
        LAL.get(file),
        PCL.get(file),
        XOFS.get(file),
        XPIX.get(file),
        YOFSO.get(file),
        YOFSE.get(file),
        YPIX.get(file),
        HLEN.get(file),
        XINC.get(file),
        YINC.get(file),
        YIWGTO.get(file),
        YIWGTE.get(file),
        YSKIP.get(file),
    ]
}
