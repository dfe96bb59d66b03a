// Work between a feed and a strip that are planned, and what it leaves there.
ghost use Rattle.std.specs.Prelude.{◌≡◌, ◌-◌, ◌≤◌, [], length, take, IfOk};
ghost use Rattle.vocabulary.specs.World.{Rules, rules};
ghost use Rattle.machine.specs.Seen.{between};
ghost use Rattle.machine.specs.State.{Ports, ports};
ghost use Rattle.planned.specs.Carried.{Carried, left_ports, planned_rules, planned_space};
ghost use Rattle.planned.specs.declared.carry.CarryError.TheVariants.{Refused};

use notation::plan::{FeedPlan, StripPlan};
use ports::feed::Feed;
use ports::lent::{Element, LentStrip};
use ports::ramp::Ramp;
use ports::records::OutRecord;
use ports::strip::Strip;
use ports::trace::Trace;
use std::alloc::{AllocError, Global};
use vocabulary::item::Item;
use vocabulary::refusal::Refusal;

// What is done between a feed and a strip of any kind, and what it answers. It is no closure, since it is generic over both.
pub trait Job {
    type Answer: Drop;

    type Error: From<AllocError> + Drop;

    // What work with this answer does, by the rules of the strip, between feed and strip before and after it.
    ghost does: { Self → Self.Answer → Rules → Ports → Ports → Type 0 };

    fn work<F: Feed, S: Strip>(
        &self,
        feed: &mut F,
        strip: &mut S,
    ) -> Result<Self::Answer, Self::Error>
        ensures done { IfOk result (λ answer. does self.now answer (rules S.Strip.price) (between F.Feed S.Strip feed.old strip.old) (between F.Feed S.Strip feed.new strip.new)) }
        ensures kept { S.Strip.keeps strip.old strip.new };
}

// Why work was not carried out.
#[derive(Drop)]
pub enum CarryError<E> {
    // the ramp is refused, and nothing was done
    Refused(Refusal),
    // the work, or the memory for it, failed
    Failed(E),
}

// `From` by hand: the one that thiserror writes has no contract, and the clauses tell the errors apart.
impl<E> From<Refusal> for CarryError<E> {
    ghost from_gives = { λ refusal e. e ≡ Refused refusal };

    fn from(refusal: Refusal) -> CarryError<E> {
        CarryError::Refused(refusal)
    }
}

// The part of a strip's memory that is filled. The plan says which of the two strips it is.
#[derive(Drop)]
pub enum Filled {
    Records(Vec<OutRecord>),
    Text(Vec<u8>),
}

// What is left when the work is done: the items in the feed, what the strip holds, and its space.
#[derive(Drop)]
pub struct Left {
    pub items: Vec<Item>,
    pub filled: Filled,
    pub space: usize,
}

// What work answered, and what it left.
#[derive(Drop)]
pub struct Outcome<T> {
    pub answer: T,
    pub left: Left,
}

// The items that wait, all of them.
fn drain<F: Feed>(heap: Global, feed: &mut F) -> Result<Vec<Item>, AllocError>
    ensures { IfOk result (λ items. items.items ≡ F.Feed.waiting feed.old) }
{
    let mut items = Vec::new(heap);
    while let Some(item) = feed.take() {
        items.push(item)?;
    }
    Ok(items)
}

// Has the job work onto a strip over this memory, and says what it answers and how much of the memory is filled then.
fn work_onto<T: Element, F: Feed, J: Job>(
    job: &J,
    feed: &mut F,
    memory: &mut [T],
) -> Result<(J::Answer, usize), J::Error>
    ensures { IfOk result (λ r. (r.1 ≤ length memory.new) × J.does job.now r.0 (rules T.Element.price) (ports (F.Feed.waiting feed.old) [] (length memory.old)) (ports (F.Feed.waiting feed.new) (T.Element.said (take r.1 memory.new)) (length memory.new - r.1))) }
{
    let mut strip = LentStrip::new(memory);
    let answer = job.work(feed, &mut strip)?;
    Ok((answer, strip.used()))
}

// The same over `size` fresh elements; of these it gives those that are filled.
fn onto<T: Element, F: Feed, J: Job>(
    heap: Global,
    job: &J,
    feed: &mut F,
    blank: T,
    size: usize,
) -> Result<(J::Answer, Vec<T>), J::Error>
    ensures { IfOk result (λ r. (length r.1.items ≤ size) × J.does job.now r.0 (rules T.Element.price) (ports (F.Feed.waiting feed.old) [] size) (ports (F.Feed.waiting feed.new) (T.Element.said r.1.items) (size - length r.1.items))) }
{
    let mut memory = vec![in heap; blank; size]?;
    let (answer, used) = work_onto(job, feed, memory.as_mut_slice())?;
    memory.truncate(used);
    Ok((answer, memory))
}

// The same onto the strip that is planned, with what is left in the feed.
fn onto_strip<F: Feed, J: Job>(
    heap: Global,
    job: &J,
    feed: &mut F,
    strip: StripPlan,
) -> Result<Outcome<J::Answer>, J::Error>
    ensures { IfOk result (λ o. J.does job.now o.answer (planned_rules strip) (ports (F.Feed.waiting feed.old) [] (planned_space strip)) (left_ports o.left)) }
{
    let (answer, filled, space) = match strip {
        StripPlan::Records(size) => {
            let blank = OutRecord { sort: 0, number: 0 };
            let (answer, records) = onto(heap, job, feed, blank, size)?;
            let space = size - records.len();
            (answer, Filled::Records(records), space)
        }
        StripPlan::Text(size) => {
            let (answer, text) = onto(heap, job, feed, 0u8, size)?;
            let space = size - text.len();
            (answer, Filled::Text(text), space)
        }
    };
    let items = drain(heap, feed)?;
    let left = Left {
        items,
        filled,
        space,
    };
    Ok(Outcome { answer, left })
}

// Does the work, and gives what it answers and leaves. Where the ramp is refused, nothing is done.
pub fn carry_out<J: Job>(
    heap: Global,
    job: &J,
    feed: &FeedPlan,
    strip: StripPlan,
) -> Result<Outcome<J::Answer>, CarryError<J::Error>>
    ensures { Carried (λ answer before after. J.does job.now answer (planned_rules strip) before after) feed.now strip result }
{
    let outcome = match feed {
        FeedPlan::Trace(records) => {
            let mut trace = Trace::new(records.as_slice());
            onto_strip(heap, job, &mut trace, strip)
        }
        FeedPlan::Ramp { start, step, count } => {
            let mut ramp = Ramp::new(*start, *step, *count)?;
            onto_strip(heap, job, &mut ramp, strip)
        }
    };
    outcome.map_err(CarryError::Failed)
}
