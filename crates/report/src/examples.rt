// The requests of document 01's figures that more than one program shows.
use scaler::request::{PixelClocks, Request};

// 640 x 480 at 60 Hz.
pub const FIGURE_1: Request = Request {
    standard: 0,
    inpix: 640,
    inlin: 480,
    inppl: 800,
    outpix: 640,
    outlin: 216,
    offset: 0,
    yskip: 0,
    xofs: PixelClocks(80),
    yofso: 66,
};

// 800 x 600 at 50 Hz, with the whole of the vertical filter.
pub const FIGURE_4: Request = Request {
    standard: 1,
    inpix: 800,
    inlin: 600,
    inppl: 1024,
    outpix: 640,
    outlin: 255,
    offset: 0,
    yskip: 4095,
    xofs: PixelClocks(200),
    yofso: 89,
};
