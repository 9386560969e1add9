//! The section of an exchange, taken record by record.
use ice_journal::{Room, read_record};
use ice_section::Section;
use std::test::Fail;

#[test]
fn a_section(rt: HostRuntime) -> Result<(), Fail> {
    let mut room = Room::new();
    let mut section = Section::new(rt.alloc());
    for text in [
        "settings 50 0 100 1 5 200",
        "exact A",
        "bidder s 2",
        "node sell 0 2 -2 -2",
    ] {
        assert!(rt; !section.may_end(), "{text}");
        let line = read_record(text.as_bytes(), &mut room).ok_or("no record")?;
        section.take(&line)?;
    }
    assert!(rt; section.may_end());
    let exchange = section.finish()?;
    assert_eq!(rt; exchange.goods(), 1);
    assert_eq!(rt; exchange.bidders(), 1);
    assert!(rt; exchange.is_exact(0));
    Ok(())
}
