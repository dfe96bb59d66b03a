// A session: a list of calls, carried out one after the other on a sequencer that is new.
#![tactic(auto)]

ghost use Rattle.std.specs.Prelude.{◌≡◌, MatchResult};
ghost use Rattle.vocabulary.specs.World.{rules};
ghost use Rattle.machine.specs.Seen.{between};
ghost use Rattle.sequencer.specs.Model.{model};
ghost use Rattle.session.specs.Acting.{done_answer, told_answer, scene, Acted};
ghost use Rattle.session.specs.Law.{Session};

use ports::feed::Feed;
use ports::strip::Strip;
use sequencer::report::Report;
use sequencer::state::Sequencer;
use std::alloc::{AllocError, Global};
use std::fmt;
use vocabulary::refusal::Refusal;

// The calls of a session.
#[derive(Drop)]
pub enum Call<'a> {
    Load(&'a [u8]),
    Open(&'a [u8]),
    Rewind,
    Run(u32),
    Report,
}

// The answer to a call: load, open and rewind answer only that they are done, run and report how the take stands. An enum of its
// own, and no `Result<Option<Report>, Refusal>`, since it is told to people by its own Display.
#[derive(Clone, Copy, PartialEq, Eq, Debug)]
pub enum Answer {
    Done,
    Told(Report),
    Refused(Refusal),
}

impl fmt::Display for Answer {
    fn fmt<W: fmt::Write>(&self, f: &mut fmt::Formatter<W>) -> fmt::Result {
        match self {
            Answer::Done => f.write_str("done"),
            Answer::Told(report) => write!(f, "{report}"),
            Answer::Refused(refusal) => write!(f, "{refusal}"),
        }
    }
}

impl From<Result<(), Refusal>> for Answer {
    ghost from_gives = { λ res answer. answer ≡ done_answer res };

    fn from(res: Result<(), Refusal>) -> Answer {
        match res {
            Ok(()) => Answer::Done,
            Err(refusal) => Answer::Refused(refusal),
        }
    }
}

impl From<Result<Report, Refusal>> for Answer {
    ghost from_gives = { λ res answer. answer ≡ told_answer res };

    fn from(res: Result<Report, Refusal>) -> Answer {
        match res {
            Ok(report) => Answer::Told(report),
            Err(refusal) => Answer::Refused(refusal),
        }
    }
}

// Carries out one call. Feed and strip stay two parameters: callers hold them apart, and each call of a struct of both would make it
// and take it apart again.
fn act<F: Feed, S: Strip>(
    sequencer: &mut Sequencer,
    call: &Call,
    feed: &mut F,
    strip: &mut S,
) -> Answer
    ensures acted { Acted (rules S.Strip.price) call.now (scene (model sequencer.old) (between F.Feed S.Strip feed.old strip.old)) result (scene (model sequencer.new) (between F.Feed S.Strip feed.new strip.new)) }
    ensures kept { S.Strip.keeps strip.old strip.new }
{
    match call {
        Call::Load(table) => sequencer.load(table).into(),
        Call::Open(sheet) => sequencer.open(sheet).into(),
        Call::Rewind => sequencer.rewind().into(),
        Call::Run(fuel) => sequencer.run(*fuel, feed, strip).into(),
        Call::Report => sequencer.report().into(),
    }
}

// Carries out the calls in their order, each as it would be by itself, and answers their answers. Where there is no memory
// for the answers, nothing is done.
pub fn session<F: Feed, S: Strip>(
    calls: &[Call],
    feed: &mut F,
    strip: &mut S,
    heap: Global,
) -> Result<Vec<Answer>, AllocError>
    ensures law { MatchResult result (λ answers. Session (rules S.Strip.price) calls.now answers.items (between F.Feed S.Strip feed.old strip.old) (between F.Feed S.Strip feed.new strip.new)) (λ _. (feed.new ≡ feed.old) × (strip.new ≡ strip.old)) }
    ensures kept { S.Strip.keeps strip.old strip.new }
{
    let mut answers = Vec::with_capacity(heap, calls.len())?;
    let mut sequencer = Sequencer::new();
    for call in calls {
        let answer = act(&mut sequencer, call, feed, strip);
        answers.push_reserved(answer);
    }
    Ok(answers)
}
