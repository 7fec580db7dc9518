// What stands around the curves, on a sheet of 900 by 424.
use journal_lines::Lines;
use pictures::counting::Counted;
use pictures::svg::{Hundredths, Pixels};
use pictures::{heading, svg};

fn texts(out: &mut Lines) {
    out.put(
        b"text{font-family:sans-serif;font-size:11px;fill:#222}.title{font-size:17px;font-weight:bold}.note{fill:#555}",
    );
    out.put(
        b".left,.row{text-anchor:end}.row{font-size:10px}.number,.axis{text-anchor:middle;fill:#555}.name{font-size:10px;fill:#555}\n",
    );
}

// The curves differ in width and dashes too, for who does not tell colours apart.
fn lines(out: &mut Lines) {
    out.put(
        b"path{fill:none;stroke:#222}.grid{stroke:#ddd}.gap{fill:#f3e6e6;shape-rendering:crispEdges}.same{fill:#666}.refused{fill:#c00}.deed{fill:#bbb}\n",
    );
    out.put(
        b".fill{stroke:#666;stroke-width:1.2}.level{stroke:#2f74c8;stroke-width:2.6}.peak{stroke:#b34700;stroke-width:1.8;stroke-dasharray:7 5}",
    );
}

fn open_sheet(out: &mut Lines) {
    out.put(b"<svg xmlns='http://www.w3.org/2000/svg' width='900' height='424'>\n<style>\n");
    texts(out);
    lines(out);
    out.put(b"</style>\n<rect width='100%' height='100%' style='fill:#fff'/>\n");
}

fn title(counted: Counted, out: &mut Lines) {
    out.put(
        b"<text class='title' x='16' y='26'>How full the store runs, read after each call</text>\n",
    );
    svg::open_text(b"note", Pixels(16), Hundredths(4400), out);
    heading::put(counted, out);
    svg::close_text(out);
}

// A sample of each curve, and its name.
fn legend(out: &mut Lines) {
    out.put(
        b"<path class='fill' d='M92 69H104V63H122'/>\n<text x='128' y='70'>fill: the part that is live</text>\n",
    );
    out.put(
        b"<path class='level' d='M284 66H314'/>\n<text x='320' y='70'>level: an eighth of the way to the fill at each reading</text>\n",
    );
    out.put(
        b"<path class='peak' d='M640 66H672'/>\n<text x='678' y='70'>peak: the highest level so far</text>\n",
    );
}

fn grid(out: &mut Lines) {
    out.put(b"<path class='grid' d='M92 100H852M92 164H852M92 228H852M92 292H852'/>\n");
    out.put(
        b"<text class='left' x='86' y='104'>256</text>\n<text class='left' x='86' y='168'>192</text>\n<text class='left' x='86' y='232'>128</text>\n",
    );
    out.put(
        b"<text class='left' x='86' y='296'>64</text>\n<text class='left' x='86' y='360'>0</text>\n",
    );
    out.put(
        b"<text x='858' y='104'>100 %</text>\n<text x='858' y='168'>75 %</text>\n<text x='858' y='232'>50 %</text>\n",
    );
    out.put(b"<text x='858' y='296'>25 %</text>\n<text x='858' y='360'>0 %</text>\n");
}

// The names of the axes, and of the rows below.
fn names(out: &mut Lines) {
    out.put(
        b"<text class='axis' transform='translate(46 228) rotate(-90)'>256ths of the store</text>\n",
    );
    out.put(b"<text class='row' x='87' y='371'>no change</text>\n");
    out.put(b"<text class='row' x='87' y='386'>reading refused</text>\n");
    out.put(b"<text class='row' x='87' y='402'>call</text>\n");
}

// All but the curves and the marks.
pub fn begin(counted: Counted, out: &mut Lines) {
    open_sheet(out);
    title(counted, out);
    legend(out);
    grid(out);
    names(out);
    out.put(b"<path d='M92 100V356H852V100'/>\n");
}
