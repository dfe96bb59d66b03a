// `workshop session`: a session from standard input, all of which is read before anything is carried out.
use crate::stop::Stop;
use planned::input::read_session;
use planned::whole::printout;
use session::Answer;
use std::fmt;

// Each answer is printed as `shown` shows it.
pub fn run_session<D: fmt::Display + Drop, F: Fn(Answer) -> D>(
    rt: &HostRuntime,
    shown: F,
) -> Result<(), Stop>
    requires { F.IsAlwaysCallable shown }
{
    let heap = rt.alloc();
    let session = read_session(
        rt,
        |plan, text| plan.read(heap, text.as_bytes()),
        "workshop: a session has a feed line and a strip line, before its calls",
    )?
    .ok_or(Stop::Told)?;
    rt.print(printout(heap, &session, shown)?)?;
    Ok(())
}
