// A whole session: its calls are carried out by the one call whose contract has the law of takes.
ghost use Rattle.std.specs.Prelude.{◌≡◌, ℕ, List, [], ◌∷◌, ◌++◌, Some, IfOk, map, string_bytes, vec_items};
ghost use Rattle.std.specs.List.{flat_map};
ghost use Rattle.notation.specs.Lines.{spoken_call};
ghost use Rattle.session.specs.Law.{Session as LawfulSession};
ghost use Rattle.session.specs.declared.Answer.{Answer as SessionAnswer};
ghost use Rattle.planned.specs.Carried.{Carried};
ghost use Rattle.planned.specs.Printouts.{lines_shown, printout_text};
ghost use Rattle.planned.specs.Sessions.{Answers, Printed, call_said};

use crate::carry::{CarryError, Job, Outcome, carry_out};
use crate::plan::Session;
use crate::show::Printout;
use notation::plan::CallPlan;
use ports::feed::Feed;
use ports::strip::Strip;
use session::{Answer, Call, session};
use std::alloc::{AllocError, Global};
use std::fmt;

// The calls of a session, and the heap that its answers are put on.
#[derive(Drop)]
struct SessionJob<'a, 'b> {
    heap: Global,
    calls: &'a [Call<'b>],
}

impl Job for SessionJob<'_, '_> {
    type Answer = Vec<Answer>;

    type Error = AllocError;

    ghost does = { λ job answers rules before after. LawfulSession rules job.calls.now (vec_items answers) before after };

    fn work<F: Feed, S: Strip>(
        &self,
        feed: &mut F,
        strip: &mut S,
    ) -> Result<Vec<Answer>, AllocError> {
        session(self.calls, feed, strip, self.heap)
    }
}

// A call, over the bytes that its plan holds.
fn lent(plan: &CallPlan) -> Call<'_>
    ensures { call_said result ≡ spoken_call plan.now }
{
    match plan {
        CallPlan::Load(table) => Call::Load(table.as_slice()),
        CallPlan::Open(sheet) => Call::Open(sheet.as_slice()),
        CallPlan::Rewind => Call::Rewind,
        CallPlan::Run(fuel) => Call::Run(*fuel),
        CallPlan::Report => Call::Report,
    }
}

// The calls, over the bytes that the plans hold.
fn lend(heap: Global, plans: &[CallPlan]) -> Result<Vec<Call<'_>>, AllocError>
    ensures { IfOk result (λ calls. map call_said (vec_items calls) ≡ map spoken_call plans.now) }
{
    plans.iter().map(lent).collect(heap)
}

// Carries out a session between the feed and the strip that are planned. Where the ramp is refused, nothing is done.
pub fn carry_out_session(
    heap: Global,
    session: &Session,
) -> Result<Outcome<Vec<Answer>>, CarryError<AllocError>>
    ensures { Carried (λ answers before after. Answers session.now (vec_items answers) before after) session.now.feed session.now.strip result }
{
    let calls = lend(heap, session.calls.as_slice()).map_err(CarryError::Failed)?;
    let job = SessionJob {
        heap,
        calls: calls.as_slice(),
    };
    carry_out(heap, &job, &session.feed, session.strip)
}

// The answers as `shown` shows them.
fn shown_each<D: fmt::Display + Drop, F: Fn(Answer) -> D>(
    heap: Global,
    answers: &[Answer],
    shown: F,
) -> Result<Vec<D>, AllocError>
    requires { F.IsAlwaysCallable shown }
    ensures { (piece : SessionAnswer → List ℕ) → ((a : SessionAnswer) (d : D) → F.post shown a d → (word : List ℕ) × (D.output d ≡ Some word) × (piece a ≡ word ++ (10 ∷ []))) → IfOk result (λ all. lines_shown D.output (vec_items all) ≡ Some (flat_map piece answers.now)) }
{
    let mut all = Vec::with_capacity(heap, answers.len())?;
    for answer in answers {
        all.push(shown(*answer))?;
    }
    Ok(all)
}

// What a session prints: each answer as `shown` shows it, a line each, and then what the session leaves; or the refusal of its ramp
// alone. It prints piece by piece: none of its text is held.
pub fn printout<D: fmt::Display + Drop, F: Fn(Answer) -> D>(
    heap: Global,
    session: &Session,
    shown: F,
) -> Result<Printout<D>, AllocError>
    requires { F.IsAlwaysCallable shown }
    ensures { (piece : SessionAnswer → List ℕ) → ((a : SessionAnswer) (d : D) → F.post shown a d → (word : List ℕ) × (D.output d ≡ Some word) × (piece a ≡ word ++ (10 ∷ []))) → IfOk result (λ p. (text : List ℕ) × (printout_text D.output p ≡ Some text) × Printed piece session.now text) }
{
    match carry_out_session(heap, session) {
        Ok(Outcome { answer, left }) => {
            let answers = shown_each(heap, answer.as_slice(), shown)?;
            Ok(Printout::Carried { answers, left })
        }
        Err(CarryError::Refused(refusal)) => Ok(Printout::Refused(refusal)),
        Err(CarryError::Failed(error)) => Err(error),
    }
}

// The same as a text.
pub fn session_text<D: fmt::Display + Drop, F: Fn(Answer) -> D>(
    heap: Global,
    session: &Session,
    shown: F,
) -> Result<String, AllocError>
    requires { F.IsAlwaysCallable shown }
    ensures { (piece : SessionAnswer → List ℕ) → ((a : SessionAnswer) (d : D) → F.post shown a d → (word : List ℕ) × (D.output d ≡ Some word) × (piece a ≡ word ++ (10 ∷ []))) → IfOk result (λ text. Printed piece session.now (string_bytes text)) }
{
    let page = printout(heap, session, shown)?;
    format!(in heap; "{page}")
}
