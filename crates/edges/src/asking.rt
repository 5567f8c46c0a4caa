// A chip, and what is printed of the calls that it is asked.
use crate::printing::{is_done, line};
use session::call::call;
use state::events::blank_log;
use state::state::{Session, closed_state};
use std::io;
use words::layout::WORDS;

// All that a reader holds between two calls. A call is its operation and three arguments, by the page's numbers: an `Order` with
// its four names at each of some 170 would be no plainer.
#[derive(Drop)]
pub struct Case<'a> {
    rt: &'a HostRuntime,
    pub session: Session,
    working: [u64; WORDS],
    kept: [u64; WORDS],
}

impl<'a> Case<'a> {
    pub fn fresh(rt: &'a HostRuntime) -> Case<'a> {
        Case {
            rt,
            session: Session {
                state: closed_state(),
                log: blank_log(),
            },
            working: [0; WORDS],
            kept: [0; WORDS],
        }
    }

    // A session with repository 0 open and a read-write transaction.
    pub fn started(rt: &'a HostRuntime) -> io::Result<Case<'a>> {
        let mut case = Case::fresh(rt);
        case.lead([1, 0, 0, 0])?;
        case.lead([3, 0, 0, 0])?;
        case.lead([5, 0, 0, 0])?;
        Ok(case)
    }

    // A call; it is printed if the case is about it, or if it is refused.
    fn ask(&mut self, asked: [u32; 4], about: bool) -> io::Result<()> {
        let [op, a, b, c] = asked;
        let answer = call(op, a, b, c, self.session, &mut self.working, &mut self.kept);
        self.session = answer.session;
        if about || !is_done(&answer) {
            line(self.rt, asked, &answer)?;
        }
        Ok(())
    }

    // A call that the case is about. It and `lead` are two names, since a flag at each call would be no plainer.
    pub fn show(&mut self, asked: [u32; 4]) -> io::Result<()> {
        self.ask(asked, true)
    }

    // A call that leads there: it is done, or the program says otherwise.
    pub fn lead(&mut self, asked: [u32; 4]) -> io::Result<()> {
        self.ask(asked, false)
    }

    // So many calls that lead there, each of its number, from 0 on.
    pub fn lead_all<F: Fn(u32) -> [u32; 4]>(&mut self, n: u32, asked: F) -> io::Result<()>
    where
        F: Drop,
        requires { F.IsAlwaysCallable asked }
    {
        for i in 0..n {
            self.lead(asked(i))?;
        }
        Ok(())
    }
}
