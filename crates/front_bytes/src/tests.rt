use super::*;
use std::test::Fail;

/// Puts so many bytes ahead, which count down to the last.
fn put_many(list: &mut FrontBytes, count: u8) -> Option<()> {
    for byte in 0..count {
        if list.put_ahead(&[byte]).is_err() {
            return None;
        }
    }
    Some(())
}

#[test]
fn parts_stand_behind_what_is_put_ahead(rt: HostRuntime) -> Result<(), Fail> {
    let mut list = FrontBytes::new(rt.alloc());
    assert_eq!(rt; list.len(), 0);
    list.put_ahead(&[7, 8, 9]).map_err(|_| "memory")?;
    let mark = list.len();
    assert_eq!(rt; mark, 3);
    list.put_ahead(&[5, 6]).map_err(|_| "memory")?;
    assert_eq!(rt; list.bytes(), [5, 6, 7, 8, 9].as_slice());
    if list.len() < mark {
        return Err("shorter".into());
    }
    assert_eq!(rt; list.since(mark), [5, 6].as_slice());
    list.reset(mark);
    assert_eq!(rt; list.bytes(), [7, 8, 9].as_slice());
    put_many(&mut list, 255).ok_or("memory")?;
    put_many(&mut list, 255).ok_or("memory")?;
    assert_eq!(rt; list.len(), 513);
    let all = list.bytes();
    assert_eq!(rt;
        all[..3].to_vec(rt.alloc())?.as_slice(),
        [254, 253, 252].as_slice()
    );
    Ok(())
}

#[test]
fn room_that_was_taken_is_no_byte(rt: HostRuntime) -> Result<(), Fail> {
    for room in [0, 1, 255, 262_144] {
        let mut list = FrontBytes::with_room(rt.alloc(), room).map_err(|_| "memory")?;
        assert_eq!(rt; list.len(), 0);
        put_many(&mut list, 255).ok_or("memory")?;
        assert_eq!(rt; list.len(), 255);
        list.put_ahead(&[1, 2, 3]).map_err(|_| "memory")?;
        let all = list.bytes();
        assert_eq!(rt;
            all[..4].to_vec(rt.alloc())?.as_slice(),
            [1, 2, 3, 254].as_slice()
        );
    }
    Ok(())
}
