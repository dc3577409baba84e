//! A report that is printed.
ghost use Rattle.std.specs.Prelude.{◌≡◌, false};
ghost use Rattle.mirror_engines.specs.Ports.{is_lost, output_of, PrintsMore};

use crate::lines::say;
use byte_streams::Output;
use node_base::RevNo;
use sync_job::{Report, Told};

/// Prints what a job has done: a line each, which is handed on at once. Once a line couldn't be written no other is.
#[derive(Drop)]
pub struct Printer<O: Output + Drop> {
    output: O,
    lost: bool,
}

impl<O: Output + Drop> Printer<O> {
    /// Prints to an output; nothing is printed yet.
    pub fn new(output: O) -> Printer<O>
        ensures output { output_of result ≡ output }
        ensures lost { is_lost result ≡ false }
    {
        Printer {
            output,
            lost: false,
        }
    }

    /// Whether a line couldn't be written.
    pub fn is_lost(&self) -> bool
        ensures { result ≡ is_lost self.now }
    {
        self.lost
    }

    /// The output, as the lines have left it.
    pub fn into_output(self) -> O
        ensures { result ≡ output_of self }
    {
        let Printer { output, lost: _ } = self;
        output
    }

    // Prints a line, where none was lost.
    fn tell(&mut self, told: &Told)
        ensures told { PrintsMore O.Output self.old told.now self.new }
    {
        if self.lost {
            return;
        }
        if say(&mut self.output, told).is_err() {
            self.lost = true;
        }
    }
}

impl<O: Output + Drop> Report for Printer<O> {
    ghost use Rattle.mirror_engines.specs.Ports.{HasPrinted};

    ghost heard = { λ now first told. HasPrinted O.contents O.failures now first told };

    fn committed(&mut self, number: RevNo) {
        self.tell(&Told::Committed(number))
    }

    fn copied(&mut self, number: RevNo) {
        self.tell(&Told::Copied(number))
    }
}
