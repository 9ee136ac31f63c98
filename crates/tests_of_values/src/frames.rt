use error_frames::{At, FrameErrors, Policy, ResumeKind, Taken};
use vba_values::Bad;

const LABEL: At = At(90);

#[test]
fn a_handler_passes_on_until_resume(rt: HostRuntime) {
    let mut frame = FrameErrors::new();
    let entered = frame.take(At(1), At(2));
    frame.set(Policy::Handler(LABEL));
    let first = frame.take(At(3), At(4));
    let second = frame.take(At(91), At(92));
    frame.set(Policy::ResumeNext);
    let third = frame.take(At(93), At(94));
    let resumed = frame.resume(ResumeKind::Again, At(4));
    let fourth = frame.take(At(3), At(4));
    let again = frame.resume(ResumeKind::Again, At(4));
    frame.set(Policy::Default);
    let fifth = frame.take(At(5), At(6));
    let taken = [entered, first, second, third, fourth, fifth];
    assert!(rt;
        taken
            == [
                Taken::PassOn,
                Taken::Handler(LABEL),
                Taken::PassOn,
                Taken::PassOn,
                Taken::Next(At(4)),
                Taken::PassOn
            ]
    );
    assert!(rt; [resumed, again] == [Ok(At(3)), Err(Bad::Raise(20))]);
}

#[test]
fn an_ended_handler_takes_again(rt: HostRuntime) {
    let mut frame = FrameErrors::new();
    frame.set(Policy::Handler(LABEL));
    let first = frame.take(At(1), At(2));
    let failed = frame.failed;
    frame.end_handler();
    let ended = frame.resume(ResumeKind::Next, At(2));
    let second = frame.take(At(3), At(4));
    let next = frame.resume(ResumeKind::Next, At(4));
    let third = frame.take(At(5), At(6));
    let label = frame.resume(ResumeKind::Label(At(80)), At(6));
    assert!(rt; [first, second, third] == [Taken::Handler(LABEL); 3]);
    assert!(rt; [failed, frame.failed] == [Some(At(1)), None]);
    assert!(rt; [ended, next, label] == [Err(Bad::Raise(20)), Ok(At(4)), Ok(At(80))]);
}
