//! The lines of an access file, byte for byte.
use crate::{
    Cause, EndCause, HeadName, Look, NodePick, NodeTurn, Note, NoteBody, RequestNote, note_text,
};
use px_base::List;
use std::alloc::Global;
use std::process::Abort;
use std::test::Fail;
use wrr_deadlines::Pick;

fn expect(rt: &impl Abort, alloc: Global, body: NoteBody, text: &str) -> Result<(), Fail> {
    let mut out = Vec::from_slice(alloc, b"before\n")?;
    note_text(alloc, &Note { link: 0, body }, &mut out)?;
    let mut wanted = Vec::from_slice(alloc, b"before\n")?;
    wanted.extend_from_slice(text.as_bytes())?;
    assert_eq!(rt; out.as_slice(), wanted.as_slice());
    Ok(())
}

// The first request of a connection, answered by the first configuration's only router.
fn request(alloc: Global, status: u16, cause: Cause) -> Result<RequestNote, Fail> {
    Ok(RequestNote {
        index: 1,
        generation: 1,
        router: Some(0),
        status,
        cause,
        looks: List::from_slice(alloc, &[Look { node: 0, mask: 1 }])?,
        picks: List::from_slice(
            alloc,
            &[NodePick {
                node: 0,
                pick: Pick {
                    from: 0,
                    to: 1,
                    child: 0,
                },
            }],
        )?,
        turns: List::new(alloc),
        backs: List::from_slice(alloc, &[1])?,
    })
}

#[test]
fn lines(rt: HostRuntime) -> Result<(), Fail> {
    let alloc = rt.alloc();
    let passed = NoteBody::Request(request(alloc, 200, Cause::Passed)?);
    expect(
        &rt,
        alloc,
        passed,
        "note 0 1 gen 1 router 0 status 200 Passed looks 0:1 picks 0:0-1:0 turns - backs 1\n",
    )?;
    let failed = NoteBody::Request(request(alloc, 502, Cause::BackFailed { link: 1 })?);
    expect(
        &rt,
        alloc,
        failed,
        "note 0 1 gen 1 router 0 status 502 BackFailed 1 looks 0:1 picks 0:0-1:0 turns - backs 1\n",
    )?;

    // No router, and every kind of list with more than one item.
    let mut long = request(
        alloc,
        504,
        Cause::BackLate {
            link: 4294967295,
            base: 7,
            now: 18446744073709551615,
        },
    )?;
    long.router = None;
    long.looks = List::from_slice(
        alloc,
        &[Look { node: 0, mask: 0 }, Look { node: 2, mask: 3 }],
    )?;
    long.turns = List::from_slice(
        alloc,
        &[
            NodeTurn {
                node: 3,
                n: 4,
                selected: 5,
            },
            NodeTurn {
                node: 6,
                n: 7,
                selected: 0,
            },
        ],
    )?;
    long.picks = List::new(alloc);
    long.backs = List::from_slice(alloc, &[1, 2, 3])?;
    expect(
        &rt,
        alloc,
        NoteBody::Request(long),
        "note 0 1 gen 1 router - status 504 BackLate 4294967295 7 18446744073709551615 looks 0:0,2:3 picks - turns 3:4:5,6:7:0 backs 1,2,3\n",
    )?;
    let refused = NoteBody::Request(request(alloc, 400, Cause::Head(HeadName::BothLengths))?);
    expect(
        &rt,
        alloc,
        refused,
        "note 0 1 gen 1 router 0 status 400 BothLengths looks 0:1 picks 0:0-1:0 turns - backs 1\n",
    )?;

    for (cause, text) in [
        (EndCause::Client, "note 0 end Client\n"),
        (EndCause::Idle { base: 1, now: 2 }, "note 0 end Idle 1 2\n"),
        (EndCause::Cut { link: 3 }, "note 0 end Cut 3\n"),
        (
            EndCause::CutLate { base: 1, now: 2 },
            "note 0 end Cut 1 2\n",
        ),
        (EndCause::Memory, "note 0 end Memory\n"),
    ] {
        expect(&rt, alloc, NoteBody::End(cause), text)?;
    }
    Ok(())
}
