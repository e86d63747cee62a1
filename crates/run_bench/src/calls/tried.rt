//! A call made twice, the first time between two lines on standard error.

use crate::calls::answers::Answer;
use audit_report::{IntoWrite, write_whole};
use std::alloc::Global;
use std::io;

/// The call of a name, on what its words name, or another if no row has the name; `None` if a word names nothing.
macro_rules! calls {
    ($rt:ident, $name:ident, $words:ident, $alloc:ident;
        $($call:ident($($word:ident: $kind:ident),*) => $answer:expr;)* _ => $other:expr) => {{
        $(if $name == stringify!($call) {
            $(let $word = crate::calls::words::$kind($words, $rt)?;)*
            return crate::calls::tried::tried($rt, |$alloc: std::alloc::Global| $answer);
        })*
        $other
    }};
}

/// The answer of a run into an output of its own, with the function that gives its exit status.
macro_rules! ran {
    ($alloc:ident, $out:ident, $status_of:ident, $run:expr) => {{
        let mut sink = crate::calls::words::output($alloc, $out)?;
        let $out = &mut audit_report::IntoWrite::new(&mut sink);
        let run = $run;
        crate::calls::answers::of_run($alloc, $status_of(&run), &run, sink.taken.as_slice())
    }};
}

pub(crate) use calls;
pub(crate) use ran;

/// Makes a call twice and prints its answers. What can't be printed is missed by the test that reads it.
pub fn tried<F: Fn(Global) -> Answer>(rt: &HostRuntime, call: F) -> Option<()>
    requires { F.IsAlwaysCallable call }
{
    let _ = eprint!(rt; "the call begins\n");
    let answer = call(rt.alloc());
    let _ = eprint!(rt; "the call has ended\n");
    print(rt, answer);
    let _ = println!(rt; "\nagain");
    print(rt, call(rt.alloc()));
    Some(())
}

fn print(rt: &HostRuntime, answer: Answer) {
    let text = match &answer {
        Ok(text) => text.as_slice(),
        Err(_) => b"memory refused\n",
    };
    let _ = write_whole(&mut IntoWrite::new(&mut io::writer(rt)), text);
}
