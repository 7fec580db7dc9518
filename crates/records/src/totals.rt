// The scalars of a head, by value: what the in-place calls take and give back beside the arrays and tables that they are lent.
//
// Whoever makes them or changes one goes through these functions, so that a new scalar is named here and in specs/ alone.
ghost use Rattle.std.specs.Prelude.{◌≡◌, ◌≤◌};
ghost use Rattle.records.specs.InWords.{zero_totals, blank_totals, with_size, with_count, with_free_storage, with_free_offset, with_top_bits};
ghost use Rattle.records.specs.InWords.{in_array, of_array, put_back};

#[derive(Clone, Copy)]
pub struct Totals {
    pub size: u32,
    pub max_allocs: u32,
    pub free_storage: u32,
    pub free_offset: u32,
    pub used_bins_top: u32,
}

impl Totals {
    // Of no store: with a count of 0 every call on them is refused.
    pub fn zeros() -> Totals
        ensures { result ≡ zero_totals }
    {
        Totals {
            size: 0,
            max_allocs: 0,
            free_storage: 0,
            free_offset: 0,
            used_bins_top: 0,
        }
    }

    // Of a store that is all free, with every record spare. That there are records the gate has tested.
    pub fn blank(size: u32, max_allocs: u32) -> Totals
        requires { 1 ≤ max_allocs }
        ensures { result ≡ blank_totals size max_allocs }
    {
        Totals {
            size,
            max_allocs,
            free_storage: size,
            free_offset: max_allocs - 1,
            used_bins_top: 0,
        }
    }

    // The same scalars one by one, in a place of their own. No `clone`, which hands the place on that they stand in: calls by value are slower with it
    // (docs/SPEED.md).
    pub fn copied(self) -> Totals
        ensures { result ≡ self }
    {
        Totals {
            size: self.size,
            max_allocs: self.max_allocs,
            free_storage: self.free_storage,
            free_offset: self.free_offset,
            used_bins_top: self.used_bins_top,
        }
    }

    pub fn with_size(self, size: u32) -> Totals
        ensures { result ≡ with_size self size }
    {
        Totals { size, ..self }
    }

    pub fn with_max_allocs(self, max_allocs: u32) -> Totals
        ensures { result ≡ with_count self max_allocs }
    {
        Totals { max_allocs, ..self }
    }

    pub fn with_free_storage(self, free_storage: u32) -> Totals
        ensures { result ≡ with_free_storage self free_storage }
    {
        Totals {
            free_storage,
            ..self
        }
    }

    pub fn with_free_offset(self, free_offset: u32) -> Totals
        ensures { result ≡ with_free_offset self free_offset }
    {
        Totals {
            free_offset,
            ..self
        }
    }

    pub fn with_used_bins_top(self, used_bins_top: u32) -> Totals
        ensures { result ≡ with_top_bits self used_bins_top }
    {
        Totals {
            used_bins_top,
            ..self
        }
    }

    // How many they are: the length of an array that holds them, in the order of the fields.
    pub const SCALARS: usize = 5;

    // Those that stand in an array. By a name and no `From`, as the next: programs in C lend such arrays, and it is this order that they keep.
    pub fn of_array(scalars: &[u32; Totals::SCALARS]) -> Totals
        ensures { result ≡ of_array scalars.now }
    {
        Totals {
            size: scalars[0],
            max_allocs: scalars[1],
            free_storage: scalars[2],
            free_offset: scalars[3],
            used_bins_top: scalars[4],
        }
    }

    pub fn in_array(self) -> [u32; Totals::SCALARS]
        ensures { result ≡ in_array self }
    {
        [
            self.size,
            self.max_allocs,
            self.free_storage,
            self.free_offset,
            self.used_bins_top,
        ]
    }

    // Put back into the array that they were read from: size and count stand there already, for no take and no hand-back changes them.
    pub fn put_back(self, scalars: &mut [u32; Totals::SCALARS])
        ensures { scalars.new ≡ put_back self scalars.old }
    {
        scalars[2] = self.free_storage;
        scalars[3] = self.free_offset;
        scalars[4] = self.used_bins_top;
    }
}
