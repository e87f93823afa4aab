// Which calls of a port in memory fail, by their numbers.
ghost use Rattle.std.specs.Prelude.{◌≡◌, ◌&&◌};
ghost use Rattle.std.specs.Bool.{OnTrue};
ghost use Rattle.ea_ports.specs.Port.{Rose};
ghost use Rattle.ea_ports.specs.Calls.{no_calls, next_is_listed, after_call};

use std::marker::Model;

#[derive(Drop)]
pub struct CallLog {
    failing: Vec<u32>,
    made: u64,
    failed: u64,
}

impl Model for CallLog {
    ghost use Rattle.ea_ports.specs.Calls.{Calls};

    ghost Value = { Calls };

    ghost view = { λ log. record { failing = log.failing.items; made = log.made; failed = log.failed } };
}

impl CallLog {
    pub fn new(failing: Vec<u32>) -> CallLog
        ensures { result ≡ no_calls failing.items }
    {
        CallLog {
            failing,
            made: 0,
            failed: 0,
        }
    }

    fn is_next_listed(&self) -> bool
        ensures { result ≡ next_is_listed self.now }
    {
        let number = self.made.saturating_add(1);
        self.failing
            .iter()
            .any(|listed| u64::from(*listed) == number)
    }

    // Counts a call, and says whether it fails: where it can fail and its number is listed.
    pub fn call(&mut self, can_fail: bool) -> bool
        ensures fails { result ≡ (next_is_listed self.old && can_fail) }
        ensures counted { self.new ≡ after_call result self.old }
        ensures rose { OnTrue result (Rose self.old.failed self.new.failed) }
    {
        let fails = self.is_next_listed() && can_fail;
        self.made = self.made.saturating_add(1);
        if fails {
            self.failed = self.failed.saturating_add(1);
        }
        fails
    }
}
