use super::*;
use byte_ports::Bytes;
use phrase_tree::{Arg, Name};
use serde_json::Value;
use std::alloc::Global;
use std::process::Abort;
use std::test::Fail;

fn name(rt: &impl Abort, text: &str) -> Name {
    Name::read(text).expect(rt, "a name")
}

const OBJECT: &str =
    "{\"name\":\"bank\",\"key\":\"00fF\",\"asks\":[1,2,3],\"session\":7,\"root\":\"Bank\",\"nonce\":\"0\",\"bytes\":-1,\"target\":null,\"answer\":18446744073709551616,\"args\":\"x\"}";

fn object(alloc: Global) -> Result<Value, Fail> {
    Ok(Value::from_slice(alloc, OBJECT.as_bytes())?)
}

#[test]
fn names_and_numbers_are_read_or_refused(rt: HostRuntime) -> Result<(), Fail> {
    let object = object(rt.alloc())?;
    let names = [
        (Field::Name, Ok(name(&rt, "bank"))),
        (Field::Place, Err(FieldKind::Missing)),
        (Field::Session, Err(FieldKind::WrongKind)),
        (Field::Target, Err(FieldKind::WrongKind)),
        (Field::Root, Err(FieldKind::BadName)),
    ];
    for (field, expected) in names {
        assert_eq!(rt; name_at(&object, field), expected);
    }
    assert_eq!(rt; optional_name_at(&object, Field::Place), Ok(None));
    assert_eq!(rt;
        optional_name_at(&object, Field::Target),
        Err(FieldKind::WrongKind)
    );
    let numbers = [
        (Field::Session, 0, 7, Ok(7)),
        (Field::Session, 7, 7, Ok(7)),
        (Field::Session, 8, 9, Err(FieldKind::OutOfRange)),
        (Field::Session, 0, 6, Err(FieldKind::OutOfRange)),
        (Field::Place, 0, 7, Err(FieldKind::Missing)),
        (Field::Bytes, 0, 7, Err(FieldKind::WrongKind)),
        (Field::Answer, 0, 7, Err(FieldKind::WrongKind)),
        (Field::Name, 0, 7, Err(FieldKind::WrongKind)),
    ];
    for (field, least, most, expected) in numbers {
        assert_eq!(rt; number_at(&object, field, least, most), expected);
    }
    Ok(())
}

/// The bytes of a field, or why there are none.
fn found(read: Result<Bytes, FieldError>) -> Result<usize, FieldError> {
    match read {
        Ok(bytes) => Ok(bytes.items().len()),
        Err(error) => Err(error),
    }
}

fn fault(kind: FieldKind) -> Result<usize, FieldError> {
    Err(FieldError::Kind(kind))
}

#[test]
fn bytes_are_read_or_refused(rt: HostRuntime) -> Result<(), Fail> {
    let alloc = rt.alloc();
    let object = object(alloc)?;
    let rows = [
        (Field::Key, 0, 2, Ok(2)),
        (Field::Key, 2, 2, Ok(2)),
        (Field::Key, 3, 4, fault(FieldKind::OutOfRange)),
        (Field::Key, 0, 1, fault(FieldKind::OutOfRange)),
        (Field::Nonce, 0, 0, fault(FieldKind::BadHex)),
        (Field::Name, 0, 9, fault(FieldKind::BadHex)),
        (Field::Session, 0, 9, fault(FieldKind::WrongKind)),
        (Field::Place, 0, 9, fault(FieldKind::Missing)),
    ];
    for (field, least, most, expected) in rows {
        assert_eq!(rt;
            found(bytes_at(alloc, &object, field, least, most)),
            expected
        );
    }
    let bytes = any_bytes_at(alloc, &object, Field::Key)?;
    assert_eq!(rt; bytes.items(), [0, 255].as_slice());
    assert_eq!(rt;
        found(any_bytes_at(alloc, &object, Field::Nonce)),
        fault(FieldKind::BadHex)
    );
    Ok(())
}

#[test]
fn lists_and_arguments_are_read_or_refused(rt: HostRuntime) -> Result<(), Fail> {
    let object = object(rt.alloc())?;
    let rows = [
        (Field::Asks, 3, 3, None),
        (Field::Asks, 0, 2, Some(FieldKind::OutOfRange)),
        (Field::Asks, 4, 5, Some(FieldKind::OutOfRange)),
        (Field::Name, 0, 9, Some(FieldKind::WrongKind)),
        (Field::Place, 0, 9, Some(FieldKind::Missing)),
    ];
    for (field, least, most, expected) in rows {
        assert_eq!(rt; list_at(&object, field, least, most).err(), expected);
    }
    assert_eq!(rt; optional_list_at(&object, Field::Place, 0)?.len(), 0);
    assert_eq!(rt;
        optional_list_at(&object, Field::Asks, 2).err(),
        Some(FieldKind::OutOfRange)
    );
    assert_eq!(rt; text_at(&object, Field::Args)?, "x");
    let second = list_at(&object, Field::Asks, 0, 3)?
        .get(1)
        .ok_or("an item")?;
    assert_eq!(rt; arg_of(second), Ok(Arg::Number(2)));
    assert_eq!(rt; arg_of(&object), Err(FieldKind::WrongKind));
    assert!(rt; unknown_in(&object, &[Field::Name, Field::Key]));
    assert!(rt; !unknown_in(second, &[]));
    Ok(())
}
