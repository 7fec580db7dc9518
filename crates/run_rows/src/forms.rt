// Which forms of the calls are compared. Both together are the rule; where the tables leave no room for a second set it is one.
ghost use Rattle.std.specs.Prelude.{◌≡◌};
ghost use Rattle.run_rows.specs.Forms.{in_place, by_value, verdict_of};

use call_values::call::Call;
use oracle_lists::tally::Verdict;

#[derive(Clone, Copy)]
pub enum Forms {
    Both,
    InPlace,
    ByValue,
}

impl Forms {
    // What the row asks of the form in place; `in_place` and `by_value` of specs are two definitions, and so are these.
    pub fn call_in_place(self, call: Option<Call>) -> Option<Call>
        ensures { result ≡ in_place self call }
    {
        match self {
            Forms::Both | Forms::InPlace => call,
            Forms::ByValue => None,
        }
    }

    // What the row asks of the form by value.
    pub fn call_by_value(self, call: Option<Call>) -> Option<Call>
        ensures { result ≡ by_value self call }
    {
        match self {
            Forms::Both | Forms::ByValue => call,
            Forms::InPlace => None,
        }
    }

    // The row's verdict, from the verdict on each form.
    pub fn verdict(self, in_place: Verdict, by_value: Verdict) -> Verdict
        ensures { result ≡ verdict_of self in_place by_value }
    {
        match self {
            Forms::Both => call_verdicts::both(in_place, by_value),
            Forms::InPlace => in_place,
            Forms::ByValue => by_value,
        }
    }
}
