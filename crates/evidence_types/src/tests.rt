ghost use Rattle.evidence_types.specs.Heads.{IsHead, head_of};

use crate::{Answer, Answers, Head, VALUE_NESTING, Value};
use std::test::Fail;

#[test]
fn an_answer_has_at_most_1024_bytes(rt: HostRuntime) -> Result<(), Fail> {
    for (len, is_held) in [
        (0, true),
        (1, true),
        (2, true),
        (1024, true),
        (1025, false),
        (3000, false),
    ] {
        let bytes = vec![in rt.alloc(); 171; len]?;
        match Answer::of(bytes.as_slice()) {
            Some(answer) => {
                assert!(rt; is_held, "held {len} bytes");
                assert_eq!(rt; answer.bytes(), bytes.as_slice());
                assert!(rt; answer.copy() == answer, "a copy of {len} bytes");
            }
            None => assert!(rt; !is_held, "refused {len} bytes"),
        }
    }
    Ok(())
}

#[test]
fn answers_stand_by_their_events(rt: HostRuntime) -> Result<(), Fail> {
    let (Some(first), Some(second)) = (Answer::of(&[0xaa, 0xbb]), Answer::of(&[])) else {
        assert!(rt; false, "two bytes and none are answers");
        return Ok(());
    };
    let mut answers = Answers::of(vec![in rt.alloc(); (0, first)]?);
    assert!(rt; answers.push((7, second)).is_ok());
    let pairs = answers.items();
    assert_eq!(rt; pairs.len(), 2);
    assert_eq!(rt;
        (pairs[0].0, pairs[0].1.bytes()),
        (0, [0xaa, 0xbb].as_slice())
    );
    assert_eq!(rt; (pairs[1].0, pairs[1].1.bytes().len()), (7, 0));
    Ok(())
}

// Letting go of a value takes the same stack at any depth, on the left and on the right.
#[test]
fn the_deepest_values_are_let_go_of(rt: HostRuntime) -> Result<(), Fail> {
    let alloc = rt.alloc();
    let mut sealed = Value::Empty;
    let mut left = Value::Empty;
    let mut right = Value::Empty;
    for event in 1..VALUE_NESTING {
        sealed = Value::Seal(event, [0; 32], Box::new(alloc, sealed)?);
        left = Value::SeqPair(Box::new(alloc, left)?, Box::new(alloc, Value::Empty)?);
        right = Value::ParPair(Box::new(alloc, Value::Empty)?, Box::new(alloc, right)?);
    }
    assert!(rt; matches!(&sealed, Value::Seal(1024, _, _)));
    Ok(())
}

/// Whether the bytes of a head are these, with its longest field apart.
fn is_spelled<'a, 'b, 'c>(head: Head<'a>, before: &'b [u8], field: &'c [u8]) -> bool
    requires { IsHead (head_of head) }
{
    let (prefix, tail) = head.bytes();
    prefix.as_slice() == before && tail == field
}

#[test]
fn a_head_has_its_tag_and_its_fields(rt: HostRuntime) -> Result<(), Fail> {
    assert!(rt; is_spelled(Head::Empty, &[0], &[]));
    assert!(rt; is_spelled(Head::Nonce(&[5; 16]), &[1], &[5; 16]));
    assert!(rt;
        is_spelled(
            Head::Usm(0, None, &[17, 18]),
            &[2, 0, 0, 0, 0, 0, 2],
            &[17, 18]
        )
    );
    assert!(rt;
        is_spelled(
            Head::Usm(0, Some(0), &[17]),
            &[2, 0, 0, 0, 0, 0, 0, 1],
            &[17]
        )
    );
    assert!(rt;
        is_spelled(
            Head::Kim(258, Some(255), &[]),
            &[3, 0, 0, 1, 2, 255, 0, 0],
            &[]
        )
    );
    assert!(rt; is_spelled(Head::Seal(1, &[8; 32]), &[4, 0, 0, 0, 1], &[8; 32]));
    assert!(rt; is_spelled(Head::Hash(4, &[9; 32]), &[5, 0, 0, 0, 4], &[9; 32]));
    assert!(rt; is_spelled(Head::SeqPair, &[6], &[]));
    assert!(rt; is_spelled(Head::ParPair, &[7], &[]));
    Ok(())
}
