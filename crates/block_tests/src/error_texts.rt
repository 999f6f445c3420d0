//! Errors, as a person reads them.
use attr_list::ListNo;
use attr_view::ViewNo;
use ntfs_fixup::FixFault;
use std::test::Fail;
use upcase::UpCaseNo;

#[test]
fn refusals_have_their_texts(rt: HostRuntime) -> Result<(), Fail> {
    let wrong = ListNo::Shape { at: 0x20 };
    let shape = ViewNo::Shape { at: 0x14 };
    let full = ViewNo::Full {
        need: 544,
        free: 543,
    };
    let text = format!(in rt.alloc(); "{wrong}; {}; {shape}; {full}", ListNo::Long)?;
    assert_eq!(rt;
        text.as_str(),
        "the attribute list has a wrong entry at byte 32; the attribute list would be longer than 40960 bytes; the record has a wrong shape at byte 20; the record has room for 543 bytes of 544"
    );
    Ok(())
}

#[test]
fn faults_have_their_texts(rt: HostRuntime) -> Result<(), Fail> {
    let torn = FixFault::Torn { stride: 7 };
    let text = format!(in rt.alloc(); "{}; {torn}; {}", FixFault::Array, UpCaseNo::Length)?;
    assert_eq!(rt;
        text.as_str(),
        "no update sequence array of the block's size; stride 7 was not written with its block; the table of case has a wrong length"
    );
    Ok(())
}
