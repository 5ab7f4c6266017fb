//! What readers of words refuse that no request spells, by the number of the refusal.
use farm_types::{Priority, Refusal, Tags, Want, Wants, WordFault};
use std::alloc::{AllocError, Global};
use std::test::Fail;

/// The number of a refusal, 1 for want of memory, 0 where a word was read.
fn code<T: Drop>(read: Result<T, WordFault>) -> u16 {
    match read {
        Ok(_) => 0,
        Err(WordFault::Refused(refusal)) => refusal.code,
        Err(WordFault::NoMemory) => 1,
    }
}

fn number<T: Drop>(read: Result<T, Refusal>) -> u16 {
    match read {
        Ok(_) => 0,
        Err(refusal) => refusal.code,
    }
}

#[test]
fn canonical_tags(rt: HostRuntime) {
    let rows: [(&[u8], u16); 7] = [
        (b"", 0),
        (b"hdmi,usb", 0),
        (b"usb,hdmi", 6),
        (b"hdmi,hdmi", 6),
        (b"hdmi,", 6),
        (b"a,b,c,d,e,f,g,h,i,j,k,l,m,n,o,p", 0),
        (b"a,b,c,d,e,f,g,h,i,j,k,l,m,n,o,p,q", 7),
    ];
    for (word, wanted) in rows {
        assert_eq!(rt; code(Tags::parse(rt.alloc(), word)), wanted, "{word:?}");
    }
}

/// So many wants of any board.
fn wants(alloc: Global, count: usize) -> Result<Vec<Want>, AllocError> {
    let mut list = Vec::new(alloc);
    for _ in 0..count {
        let tags = Tags::none(alloc);
        list.push(Want { kind: None, tags })?;
    }
    Ok(list)
}

#[test]
fn numbers_and_counts(rt: HostRuntime) -> Result<(), Fail> {
    assert_eq!(rt; number(Priority::of(100)), 0);
    assert_eq!(rt; number(Priority::of(101)), 23);
    for (count, wanted) in [(0, 7), (1, 0), (4, 0), (5, 7)] {
        assert_eq!(rt; number(Wants::of(wants(rt.alloc(), count)?)), wanted);
    }
    Ok(())
}
