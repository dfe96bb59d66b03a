ghost use Rattle.std.specs.Prelude.{◌≡◌, None};
ghost use Rattle.sequencer.specs.Model.{model, taking, fresh, begun, rewound, held, nodes_in, code_of};
ghost use Rattle.sequencer.specs.Calls.{Holds};

use crate::program::Program;
use crate::state::Sequencer;
use crate::take::Take;
use machine::state::Machine;
use machine::tables::Status;
use vocabulary::code::Word;
use vocabulary::node::Node;
use vocabulary::refusal::{Cause, Refusal};

impl Take {
    pub(crate) fn new() -> Take
        ensures { taking None result ≡ fresh }
    {
        Take {
            machine: Machine::new(),
            status: Status::Running,
            granted: 0,
            steps: 0,
        }
    }

    // As if new; the machine's tables are not written.
    pub(crate) fn restart(&mut self)
        ensures { taking None self.new ≡ fresh }
    {
        self.machine.restart();
        self.status = Status::Running;
        self.granted = 0;
        self.steps = 0;
    }
}

impl Sequencer {
    // No program.
    pub fn new() -> Sequencer
        ensures { model result ≡ fresh }
    {
        Sequencer {
            program: None,
            take: Take::new(),
        }
    }

    // Begins a take of a program.
    pub(crate) fn begin(&mut self, program: Program)
        ensures { model self.new ≡ begun (held program) }
    {
        self.program = Some(program);
        self.take.restart();
    }

    // The program that every call but load and open wants.
    pub(crate) fn program(&self) -> Result<&Program, Refusal>
        ensures { Holds self.now.program result }
    {
        self.program.as_ref().ok_or(Cause::NoProgram.into())
    }

    // The nodes of the program, none where there is no program.
    pub fn nodes(&self) -> &[Node]
        ensures { result.now ≡ nodes_in (model self.now).program }
    {
        self.program.as_ref().map_or(&[], |program| program.nodes())
    }

    // The code of the program, none where there is no program.
    pub fn code(&self) -> &[Word]
        ensures { result.now ≡ code_of (model self.now).program }
    {
        self.program
            .as_ref()
            .map_or(&[], |program| program.code.as_slice())
    }
}
