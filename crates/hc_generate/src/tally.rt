ghost use Rattle.std.specs.Prelude.{◌≡◌, ◌<◌, ◌≤◌, ◌^◌, ◌-◌, ◌+◌};
ghost use Rattle.hc_generate.specs.Summary.{nothing_said, refusal_counted, said_counted, total};

use hc_session::Said;

/// What the replies of a session say: how many served a file, found nothing, were forbidden, and found
/// no memory.
#[derive(Clone, Copy)]
pub struct Tally {
    pub files: u64,
    pub missing: u64,
    pub denied: u64,
    pub no_memory: u64,
}

impl Tally {
    /// Before the first reply.
    pub fn new() -> Tally
        ensures { result ≡ nothing_said }
    {
        Tally {
            files: 0,
            missing: 0,
            denied: 0,
            no_memory: 0,
        }
    }

    /// Counts a reply.
    pub fn count(&mut self, said: Said)
        requires { total self.old < 2 ^ 64 - 1 }
        ensures tally { self.new ≡ said_counted self.old said }
        ensures few { total self.new ≤ total self.old + 1 }
    {
        match said {
            Said::File => self.files += 1,
            Said::Missing => self.missing += 1,
            Said::Denied => self.denied += 1,
            Said::Other => {}
        }
    }

    /// Counts a line for which no memory was found.
    pub fn count_refusal(&mut self)
        requires { total self.old < 2 ^ 64 - 1 }
        ensures tally { self.new ≡ refusal_counted self.old }
        ensures few { total self.new ≤ total self.old + 1 }
    {
        self.no_memory += 1;
    }
}
