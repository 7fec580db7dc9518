// A row of a list: a letter, then up to four numbers, a space before each, and a newline at the end.
ghost use Rattle.std.specs.Prelude.{◌≡◌, ◌<◌};
ghost use Rattle.oracle_lists.specs.Rows.{fresh, no_list, begun, ended, with_field, with_digit, with_figure, continued, fed, is_whole, ends_well};

// Where the reader stands: before the first row; after a row's letter or a digit; after a space, so that a digit must follow; at the end of
// a row. Or the bytes are no list, and stay so.
#[derive(Clone, Copy)]
pub enum State {
    Between,
    Within,
    Opened,
    Whole,
    Spoiled,
}

// The row read so far. Its numbers come in at d and move up, so that the last number of a whole row is d, the one before it c.
// How many there were stands beside, since the theorems of lists (`specs/Facts`) speak of rows so.
#[derive(Clone, Copy)]
pub struct Reader {
    pub state: State,
    pub letter: u8,
    pub fields: u32,
    pub a: u32,
    pub b: u32,
    pub c: u32,
    pub d: u32,
}

impl Reader {
    pub fn new() -> Reader
        ensures { result ≡ fresh State.Between 0 }
    {
        Reader::fresh(State::Between, 0)
    }

    // A row with a letter and no number yet.
    fn fresh(state: State, letter: u8) -> Reader
        ensures { result ≡ fresh state letter }
    {
        Reader {
            state,
            letter,
            fields: 0,
            a: 0,
            b: 0,
            c: 0,
            d: 0,
        }
    }

    // What a byte that fits nowhere leaves.
    fn spoiled() -> Reader
        ensures { result ≡ no_list }
    {
        Reader::fresh(State::Spoiled, 0)
    }

    // The first byte of a row is its letter.
    #[tactic(auto, unfolding(crate::specs::Rows::begun))]
    fn begin(byte: u8) -> Reader
        ensures { result ≡ begun byte }
    {
        match byte {
            b'a'..=b'z' => Reader::fresh(State::Within, byte),
            _ => Reader::spoiled(),
        }
    }

    // A newline: the row is whole.
    fn end(self) -> Reader
        ensures { result ≡ ended self }
    {
        Reader {
            state: State::Whole,
            ..self
        }
    }

    // A space: the next number begins.
    #[tactic(auto, unfolding(crate::specs::Rows::with_field))]
    fn field(self) -> Reader
        ensures { result ≡ with_field self }
    {
        let fields = self.fields;
        if 4 <= fields {
            return Reader::spoiled();
        }
        Reader {
            state: State::Opened,
            fields: fields + 1,
            a: self.b,
            b: self.c,
            c: self.d,
            d: 0,
            ..self
        }
    }

    // A digit's value, added to the last number; more than 32 bits hold spoils the list.
    #[tactic(auto, unfolding(crate::specs::Rows::with_digit))]
    fn digit(self, value: u8) -> Reader
        requires { value < 10 }
        ensures { result ≡ with_digit self value }
    {
        let longer = 10 * u64::from(self.d) + u64::from(value);
        if 4294967295 < longer {
            return Reader::spoiled();
        }
        Reader {
            state: State::Within,
            d: longer as u32,
            ..self
        }
    }

    // A byte that must be a digit.
    #[tactic(auto, unfolding(crate::specs::Rows::with_figure))]
    fn figure(self, byte: u8) -> Reader
        ensures { result ≡ with_figure self byte }
    {
        match byte {
            b'0'..=b'9' => self.digit(byte - b'0'),
            _ => Reader::spoiled(),
        }
    }

    // A byte after a row's letter or a digit.
    #[tactic(auto, unfolding(crate::specs::Rows::continued))]
    fn within(self, byte: u8) -> Reader
        ensures { result ≡ continued self byte }
    {
        match byte {
            b'\n' => self.end(),
            b' ' => self.field(),
            _ if self.fields == 0 => Reader::spoiled(),
            _ => self.figure(byte),
        }
    }

    // The reader after one byte more.
    #[tactic(auto, unfolding(crate::specs::Rows::fed_at))]
    pub fn feed(self, byte: u8) -> Reader
        ensures { result ≡ fed self byte }
    {
        match self.state {
            State::Between | State::Whole => Reader::begin(byte),
            State::Within => self.within(byte),
            State::Opened => self.figure(byte),
            State::Spoiled => self,
        }
    }

    // The last byte ended a row.
    pub fn is_whole(self) -> bool
        ensures { result ≡ is_whole self.state }
    {
        matches!(self.state, State::Whole)
    }

    // A list may end here: before its first row, or after a whole one.
    pub fn ends_well(self) -> bool
        ensures { result ≡ ends_well self.state }
    {
        matches!(self.state, State::Between | State::Whole)
    }
}
