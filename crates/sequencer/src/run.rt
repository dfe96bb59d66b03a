ghost use Rattle.std.specs.Prelude.{◌≡◌, Some, Ok};
ghost use Rattle.vocabulary.specs.World.{rules};
ghost use Rattle.machine.specs.Seen.{between};
ghost use Rattle.sequencer.specs.Calls.{RunAnswer, Stepped, told, report_answer, grant_verdict};
ghost use Rattle.sequencer.specs.Model.{model, taking, held};
ghost use Rattle.sequencer.specs.Reports.{report_of};

use crate::fuel::{RUN_FUEL, TAKE_FUEL};
use crate::program::Program;
use crate::report::Report;
use crate::state::Sequencer;
use crate::take::Take;
use machine::tables::{Ran, Status};
use ports::feed::Feed;
use ports::strip::Strip;
use vocabulary::refusal::{Cause, Refusal};

impl Take {
    // Why a run of this fuel is refused, if it is.
    fn check(&self, fuel: u32) -> Result<(), Refusal>
        ensures { result ≡ grant_verdict self.now.status self.now.granted fuel }
    {
        if !matches!(self.status, Status::Running) {
            return Err(Cause::TakeEnded.into());
        }
        if fuel > RUN_FUEL || fuel > TAKE_FUEL - self.granted {
            return Err(Cause::Fuel.into());
        }
        Ok(())
    }

    // How the take stands.
    fn report(&self) -> Report
        ensures { result ≡ report_of self.now.status self.now.steps }
    {
        Report::from(Ran {
            status: self.status,
            steps: self.steps,
        })
    }

    // The steps of an accepted run.
    fn run<F: Feed, S: Strip>(
        &mut self,
        program: &Program,
        fuel: u32,
        feed: &mut F,
        strip: &mut S,
    ) -> Report
        requires { grant_verdict self.old.status self.old.granted fuel ≡ Ok tt }
        ensures ran { Stepped (rules S.Strip.price) fuel (taking (Some (held program.now)) self.old) (taking (Some (held program.now)) self.new) (between F.Feed S.Strip feed.old strip.old) (between F.Feed S.Strip feed.new strip.new) }
        ensures told { result ≡ report_of self.new.status self.new.steps }
        ensures kept { S.Strip.keeps strip.old strip.new }
    {
        let ran = self.machine.run(program.code.as_slice(), fuel, feed, strip);
        self.status = ran.status;
        self.granted += fuel;
        self.steps += ran.steps;
        self.report()
    }
}

impl Sequencer {
    // Grants fuel to the take, and steps until the fuel or the take is over.
    pub fn run<F: Feed, S: Strip>(
        &mut self,
        fuel: u32,
        feed: &mut F,
        strip: &mut S,
    ) -> Result<Report, Refusal>
        ensures answer { RunAnswer (rules S.Strip.price) fuel self.old self.new (between F.Feed S.Strip feed.old strip.old) (between F.Feed S.Strip feed.new strip.new) result }
        ensures kept { S.Strip.keeps strip.old strip.new }
    {
        let Some(program) = &self.program else {
            return Err(Cause::NoProgram.into());
        };
        self.take.check(fuel)?;
        Ok(self.take.run(program, fuel, feed, strip))
    }

    // How the take stands.
    pub fn report(&self) -> Result<Report, Refusal>
        ensures { result ≡ report_answer (model self.now) }
    {
        self.program()?;
        Ok(self.take.report())
    }
}
