// Pictures: for each request the check's reply and the fields' numbers, then the reply to writing it into a
// file of 256 zero bytes, and what that file reads as. The requests are figures 1 to 6 of document 01 and
// those that show the other replies. Reply 8 is not among them: it is proved that none gives it. A write that
// fails is not told: what is missing then is seen where the output is compared.
#![tactic(auto)]

use checks::check;
use picture::write::write_picture;
use readback::read_picture;
use reply::reply_of;
use report::Hex;
use report::examples::{FIGURE_1, FIGURE_4};
use scaler::request::{Fields, PixelClocks, Request};

fn show_request(rt: &impl Print, request: Request) {
    let Request {
        standard,
        inpix,
        inlin,
        inppl,
        outpix,
        outlin,
        offset,
        yskip,
        xofs: PixelClocks(xofs),
        yofso,
    } = request;
    let _ = print!(rt;
        " standard {standard} InPix {inpix} InLin {inlin} InPpl {inppl} OutPix {outpix} OutLin {outlin}"
    );
    let _ = print!(rt; " offset {offset} YSKIP {yskip} XOFS {xofs} YOFSO {yofso}");
}

fn show_fields(rt: &impl Print, f: Fields) {
    let _ = print!(rt; "  FISE {} ADWHS {} ADWHE {}", f.fise, f.adwhs.0, f.adwhe.0);
    let _ = print!(rt;
        " FAL {} LAL {} PCL {} XOFS {}",
        f.fal, f.lal, f.pcl, f.xofs.0
    );
    let _ = println!(rt; " XPIX {} YOFSO {} YOFSE {}", f.xpix, f.yofso, f.yofse);
    let _ = print!(rt;
        "  YPIX {} HLEN {} XINC {} YINC {}",
        f.ypix, f.hlen.0, f.xinc, f.yinc
    );
    let _ = println!(rt;
        " YIWGTO {} YIWGTE {} YSKIP {}",
        f.yiwgto, f.yiwgte, f.yskip
    );
}

// What a file reads as: the request that was wanted, or another with its numbers, all 0 beside a refusal.
fn show_read(rt: &impl Print, file: &[u8], wanted: Request) {
    let (reply, request) = readback::numbers_of(read_picture(file));
    let _ = print!(rt; "  read: {reply},");
    if request == wanted {
        let _ = println!(rt; " same request");
        return;
    }
    show_request(rt, request);
    let _ = println!(rt;);
}

fn show_file(rt: &impl Print, file: &mut [u8], request: Request) {
    let reply = reply_of(write_picture(file, request));
    let _ = println!(rt; "  write: {reply}");
    show_read(rt, file, request);
}

fn show(rt: &impl Print, name: &str, request: Request) {
    let _ = print!(rt; "{name}\n ");
    show_request(rt, request);
    let checked = check(request);
    let (reply, fields) = checks::numbers_of(checked);
    let _ = println!(rt; ": {reply}");
    if checked.is_ok() {
        show_fields(rt, fields);
    }
    show_file(rt, &mut [0; 256], request);
}

// PCL's three bytes in the file, the lowest first.
fn show_clock(rt: &impl Print, request: Request) {
    let mut file = [0; 256];
    let _ = write_picture(&mut file, request);
    let _ = println!(rt; "  places 81h to 83h:{}", Hex(&file[0x81..0x84]));
}

// 640 x 480 at 60 Hz.
fn vga_60(inppl: u16, outlin: u16, offset: i8, yskip: u16) -> Request {
    Request {
        inppl,
        outlin,
        offset,
        yskip,
        ..FIGURE_1
    }
}

// 640 x 480 at 50 Hz, with the whole of the vertical filter.
fn vga_50(outlin: u16) -> Request {
    Request {
        standard: 1,
        outlin,
        yskip: 4095,
        ..FIGURE_1
    }
}

// 640 x 240 at 60 Hz: so few lines that the pixel clock is slow enough for long ones.
fn long_lines(inppl: u16) -> Request {
    Request {
        inlin: 240,
        inppl,
        ..FIGURE_1
    }
}

// The second request of figure 5 is refused with 7, that of figure 6 with 6.
fn figures(rt: &impl Print) {
    show(rt, "figure 1", FIGURE_1);
    show_clock(rt, FIGURE_1);
    show(rt, "figure 2", vga_60(800, 220, 0, 0));
    show(rt, "figure 3", vga_60(800, 212, 0, 2048));
    show(rt, "figure 4", FIGURE_4);
    show(rt, "figure 5, InPpl 1283", vga_60(1283, 216, 0, 0));
    show(rt, "figure 5, InPpl 1284", vga_60(1284, 216, 0, 0));
    show(rt, "figure 6, OutLin 240", vga_50(240));
    show(rt, "figure 6, OutLin 241", vga_50(241));
}

// The refusals 4, 5, and 6 for HLEN's eleven bits: of each pair, which differ in one number, the second.
fn limits(rt: &impl Print) {
    show(rt, "figure 1, InPpl 720", vga_60(720, 216, 0, 0));
    show(rt, "figure 1, InPpl 719", vga_60(719, 216, 0, 0));
    show(rt, "figure 1, offset -8", vga_60(800, 216, -8, 0));
    show(rt, "figure 1, offset 9", vga_60(800, 216, 9, 0));
    show(rt, "few lines, InPpl 2048", long_lines(2048));
    show(rt, "few lines, InPpl 2049", long_lines(2049));
}

// The refusals 1 and 9, which the file decides.
fn files(rt: &impl Print) {
    let _ = println!(rt; "figure 1 and a file of 255 bytes");
    show_file(rt, &mut [0; 255], FIGURE_1);
    let _ = println!(rt; "figure 1 and a file of 257 bytes");
    show_file(rt, &mut [0; 257], FIGURE_1);
    let _ = println!(rt; "a file of 256 zero bytes");
    show_read(rt, &[0; 256], FIGURE_1);
}

fn main(rt: HostRuntime) {
    figures(&rt);
    limits(&rt);
    files(&rt);
}
