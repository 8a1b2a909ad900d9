//! The text of replies.
use arguments::MapKey;
use keys::ByteText;
use script::{LineReply, Listing, push_line};
use std::alloc::{AllocError, Global};
use std::sync::Arc;
use std::test::Fail;
use versions::Refusal;

/// The key with these bytes.
fn key(alloc: Global, bytes: &[u8]) -> Result<MapKey, AllocError> {
    Ok(MapKey::new(Arc::new(alloc, ByteText::from_slice(alloc, bytes)?)?))
}

#[test]
fn each_reply_has_its_text(rt: HostRuntime) -> Result<(), Fail> {
    let alloc = rt.alloc();
    let mut shown = Vec::new(alloc);
    push_line(&mut shown, 1, &LineReply::Done)?;
    push_line(&mut shown, 2, &LineReply::Absent)?;
    push_line(&mut shown, 30, &LineReply::Found(-5))?;
    push_line(&mut shown, 31, &LineReply::Truth(true))?;
    push_line(&mut shown, 32, &LineReply::Truth(false))?;
    push_line(&mut shown, 33, &LineReply::Count(16_777_216))?;
    push_line(&mut shown, 34, &LineReply::Pair(key(alloc, b"a=b")?, -1))?;
    push_line(&mut shown, 35, &LineReply::Item(18_446_744_073_709_551_614))?;
    push_line(&mut shown, 36, &LineReply::Item(-9_223_372_036_854_775_808))?;
    push_line(&mut shown, 65_536, &LineReply::Refused(Refusal::NoHandle))?;
    let wanted = b"1 ok\n2 none\n30 some -5\n31 true\n32 false\n33 count 16777216\n\
        34 pair a=b -1\n35 item 18446744073709551614\n36 item -9223372036854775808\n\
        65536 refused NoHandle\n";
    assert_eq!(rt; shown.as_slice(), wanted.as_slice());
    Ok(())
}

#[test]
fn each_refusal_has_its_name(rt: HostRuntime) -> Result<(), Fail> {
    let mut shown = Vec::new(rt.alloc());
    for refusal in [
        Refusal::BadNumber,
        Refusal::NoHandle,
        Refusal::Taken,
        Refusal::Full,
        Refusal::NoJob,
        Refusal::Unfinished,
        Refusal::NoWorker,
        Refusal::TooManyJobs,
        Refusal::JournalFull,
        Refusal::NoMemory,
    ] {
        push_line(&mut shown, 7, &LineReply::Refused(refusal))?;
    }
    let wanted = b"7 refused BadNumber\n7 refused NoHandle\n7 refused Taken\n7 refused Full\n\
        7 refused NoJob\n7 refused Unfinished\n7 refused NoWorker\n7 refused TooManyJobs\n\
        7 refused JournalFull\n7 refused NoMemory\n";
    assert_eq!(rt; shown.as_slice(), wanted.as_slice());
    Ok(())
}

#[test]
fn a_listing_has_its_pairs_in_order_of_bytes(rt: HostRuntime) -> Result<(), Fail> {
    let alloc = rt.alloc();
    let mut shown = Vec::new(alloc);
    push_line(&mut shown, 1, &LineReply::Pairs(Listing::new(alloc)))?;
    let mut pairs = Listing::new(alloc);
    let longest = [b'~'; 64];
    for (bytes, value) in [
        (b"b".as_slice(), 2),
        (longest.as_slice(), i64::MAX),
        (b"a=".as_slice(), i64::MIN),
        (b"B".as_slice(), 7),
        (b"a".as_slice(), 1),
        (b"b".as_slice(), 3),
        (b"c".as_slice(), 0),
    ] {
        pairs.insert(key(alloc, bytes)?, value)?;
    }
    push_line(&mut shown, 2, &LineReply::Pairs(pairs))?;
    let wanted = b"1 pairs\n2 pairs B=7 a=1 a==-9223372036854775808 b=3 c=0 \
        ~~~~~~~~~~~~~~~~~~~~~~~~~~~~~~~~~~~~~~~~~~~~~~~~~~~~~~~~~~~~~~~~=9223372036854775807\n";
    assert_eq!(rt; shown.as_slice(), wanted.as_slice());
    Ok(())
}
