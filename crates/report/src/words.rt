// The words for a count and for a fault.
ghost use Rattle.std.specs.Prelude.{◌≡◌, Some};
ghost use Rattle.report.specs.Words.{plural_ending, fault_text};

use orderfile::faults::FileFault;
use std::fmt;

// The ending of what is counted.
pub fn plural(count: u16) -> &'static str
    ensures { result.now ≡ plural_ending count }
{
    if count == 1 { "" } else { "s" }
}

// A fault's number, and what is wrong.
#[derive(Clone, Copy)]
pub struct Wrong(pub FileFault);

impl fmt::Display for Wrong {
    ghost output = { λ wrong. Some (fault_text wrong.0) };

    fn fmt<W: fmt::Write>(&self, f: &mut fmt::Formatter<W>) -> fmt::Result {
        let fault = self.0;
        match fault.number() {
            Some(number) => write!(f, "{number}: {fault}"),
            None => write!(f, "{fault}"),
        }
    }
}
