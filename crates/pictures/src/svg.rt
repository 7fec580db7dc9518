// Elements of an SVG. Places across are in pixels, and in hundredths of one where that is fine enough; places down are in hundredths, since a region can be
// much shorter than a pixel.
use journal_lines::Lines;

// A place or an extent, in units of its own, that is written in pixels.
pub trait Length: Clone + Copy {
    fn put(self, out: &mut Lines);
}

#[derive(Clone, Copy)]
pub struct Pixels(pub u32);

#[derive(Clone, Copy)]
pub struct Hundredths(pub u32);

impl Length for Pixels {
    fn put(self, out: &mut Lines) {
        out.number(u64::from(self.0));
    }
}

impl Length for Hundredths {
    fn put(self, out: &mut Lines) {
        let n = u64::from(self.0);
        out.number(n / 100);
        out.put(b".");
        out.number(n / 10 % 10);
        out.number(n % 10);
    }
}

// A name with a number: the name has the quote behind it that opens the value.
pub fn attribute<L: Length>(name: &[u8], length: L, out: &mut Lines) {
    out.put(name);
    length.put(out);
    out.put(b"'");
}

// A place and an extent.
#[derive(Clone, Copy)]
pub struct Area<X> {
    pub x: X,
    pub y: Hundredths,
    pub width: X,
    pub height: Hundredths,
}

// The rest of a rectangle, behind its class.
fn close_rect<X: Length>(area: Area<X>, out: &mut Lines) {
    attribute(b"' x='", area.x, out);
    attribute(b" y='", area.y, out);
    attribute(b" width='", area.width, out);
    attribute(b" height='", area.height, out);
    out.put(b"/>\n");
}

pub fn rect<X: Length>(class: &[u8], area: Area<X>, out: &mut Lines) {
    out.put(b"<rect class='");
    out.put(class);
    close_rect(area, out);
}

// A rectangle in one of the numbered colours.
pub fn coloured<X: Length>(colour: u32, area: Area<X>, out: &mut Lines) {
    out.put(b"<rect class='c");
    out.number(u64::from(colour));
    close_rect(area, out);
}

// A text begins; it ends with `close_text`.
pub fn open_text(class: &[u8], x: Pixels, y: Hundredths, out: &mut Lines) {
    out.put(b"<text class='");
    out.put(class);
    attribute(b"' x='", x, out);
    attribute(b" y='", y, out);
    out.put(b">");
}

// One that reads downwards.
pub fn open_downward(class: &[u8], x: Pixels, y: Hundredths, out: &mut Lines) {
    out.put(b"<text class='");
    out.put(class);
    out.put(b"' transform='translate(");
    x.put(out);
    out.put(b" ");
    out.number(u64::from(y.0 / 100));
    out.put(b") rotate(90)'>");
}

pub fn close_text(out: &mut Lines) {
    out.put(b"</text>\n");
}

// A number as a text.
pub fn number_at(class: &[u8], x: Pixels, y: Hundredths, n: u32, out: &mut Lines) {
    open_text(class, x, y, out);
    out.number(u64::from(n));
    close_text(out);
}
