//! Two calls at once, one of them in a thread with a small stack.

ghost use Rattle.std.specs.Prelude.{◌≡◌};

use core::thread::Stack;
use std::snapshot::Snapshot;
use std::sync::Wait;
use std::thread::{self, Promise, Threads};

/// The stack of a thread, in bytes: twice what a worker needs. The C library's, of 8 MB, hold address space of which a
/// run may have little.
const STACK: usize = 131_072;

/// Work for a thread.
trait Task {
    type Output;

    ghost may_run: { Self → Type 0 };

    ghost gives: { Self → Self.Output → Type 0 };

    fn run(self) -> Self::Output
        requires { may_run self }
        ensures { gives self result };
}

/// A call of a closure.
#[derive(Drop)]
struct Once<F> {
    call: F,
}

impl<F: FnOnce() -> A, A> Task for Once<F> {
    type Output = A;

    ghost may_run = { λ task. F.pre task.call };

    ghost gives = { λ task returned. F.post task.call returned };

    fn run(self) -> A {
        let Once { call } = self;
        call()
    }
}

/// A call of a closure that is lent: it comes back beside what it returned.
#[derive(Drop)]
struct Lent<'a, F> {
    call: &'a mut F,
}

impl<'a, F: FnMut() -> A, A> Task for Lent<'a, F> {
    type Output = (&'a mut F, A);

    ghost may_run = { λ task. F.pre task.call.now };

    ghost gives = { λ task returned. (returned.0.ghost_name ≡ task.call.ghost_name)
        × F.step task.call.now returned.1 returned.0.now };

    fn run(self) -> (&'a mut F, A) {
        let Lent { call } = self;
        let returned = call();
        (call, returned)
    }
}

/// That a thread returns what a task gives.
#[derive(Drop)]
struct Returns<S>(Snapshot<S>);

impl<S: Task<Output = A>, A> Promise<A> for Returns<S> {
    ghost kept_by = { λ promise returned. S.gives promise.0.value returned };
}

/// Runs the first task in a thread, or here if none can be had, and the second one here.
fn run_both<
    R: Threads + Wait,
    S: Task<Output = A> + Send + Drop,
    T: Task<Output = B> + Drop,
    A: Send + Drop,
    B,
>(rt: &R, first: S, second: T) -> (A, B)
    requires { S.may_run first × T.may_run second }
    ensures { S.gives first result.0 × T.gives second result.1 }
{
    thread::scope(
        thread::scope_env(),
        rt,
        move |scope| -> (A, B)
            requires { S.may_run first × T.may_run second }
            ensures { S.gives first result.0 × T.gives second result.1 }
        {
            let promise = Returns(Snapshot::of(&first));
            let call = move || -> A
                requires { S.may_run first }
                ensures { S.gives first result }
            { first.run() };
            match Stack::new()
                .stack_size(STACK)
                .spawn_scoped_with(scope, promise, call)
            {
                Ok(child) => {
                    let other = second.run();
                    (child.join(rt), other)
                }
                Err(refused) => ((refused.value)(), second.run()),
            }
        },
    )
}

/// Calls the first in a thread, or here if none can be had, and the second one here: what they returned.
pub(crate) fn join_once<
    R: Threads + Wait,
    F: FnOnce() -> A + Send + Drop,
    G: FnOnce() -> B + Drop,
    A: Send + Drop,
    B,
>(rt: &R, first: F, second: G) -> (A, B)
    requires { F.pre first × G.pre second }
    ensures first { F.post first result.0 }
    ensures second { G.post second result.1 }
{
    run_both(rt, Once { call: first }, Once { call: second })
}

/// Calls the first in a thread, or here if none can be had, and the second one here: what they returned. Both are lent,
/// so that the caller knows what each leaves in its captures. The thread has a stack of 128 KB.
pub fn join_mut<R: Threads + Wait, F: FnMut() -> A + Send, G: FnMut() -> B, A: Send + Drop, B>(
    rt: &R,
    first: &mut F,
    second: &mut G,
) -> (A, B)
    requires { F.pre first.old × G.pre second.old }
    ensures { F.step first.old result.0 first.new × G.step second.old result.1 second.new }
{
    let ((first, one), (second, other)) = run_both(rt, Lent { call: first }, Lent { call: second });
    take_back(first);
    take_back(second);
    (one, other)
}

// Does nothing: this use of what came back ties it to what was lent.
fn take_back<T>(_lent: &mut T)
    ensures { _lent.new ≡ _lent.old }
{}
