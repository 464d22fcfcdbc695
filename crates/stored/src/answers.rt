// An answer in a list's terms: 1 and the value, 2 for none, 0 for a refusal and then its number.
ghost use Rattle.search.specs.Promise.{Gives};
ghost use Rattle.common.specs.Refusals.{number_of};
ghost use Rattle.stored.specs.Numbers.{said_value, said_refusal, said_found, up_to_refusal};

use crate::numbers::Numbers;
use common::refusal::Refusal;

// More steps than any stored run has. A run that doesn't end by then is cut, and differs.
pub const STEPS: u32 = 2000;

impl Numbers {
    pub fn value(self, v: usize) -> Self
        ensures { Gives (said_value self v) result }
    {
        self.and(1).size(v)
    }

    pub fn refused(self, why: Refusal) -> Self
        ensures { Gives (said_refusal self (number_of why)) result }
    {
        let mut all = self.and(0);
        all.cut = true;
        all.and(why.number())
    }

    pub fn found(self, f: Result<Option<usize>, Refusal>) -> Self
        ensures { Gives (said_found self f) result }
    {
        match f {
            Ok(Some(place)) => self.value(place),
            Ok(None) => self.and(2),
            Err(r) => self.refused(r),
        }
    }

    // The numbers up to a refusal's 0: the Rust panics where ours refuse, and tells nothing behind that.
    pub fn up_to_refusal(self) -> Self
        ensures { Gives (up_to_refusal self) result }
    {
        if self.cut {
            Numbers { count: 1, ..self }
        } else {
            self
        }
    }
}
