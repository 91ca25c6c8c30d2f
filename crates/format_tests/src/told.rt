//! The texts of faults that no program prints.
use crate::expect::expect_eq;
use jup_layout::LayoutFault;
use jup_wire::WireFault;
use std::alloc::Global;
use std::process::Abort;

// The text of a fault is this.
fn tells(rt: &impl Abort, alloc: Global, fault: WireFault, due: &str) {
    let told = format!(in alloc; "{fault}").expect(rt, "memory");
    expect_eq(rt, told.as_str(), due);
}

#[test]
fn faults_have_their_texts(rt: HostRuntime) {
    for &(fault, due) in &[
        (WireFault::BadLine, "no line of the protocol"),
        (WireFault::LongLine, "256 bytes without the end of a line"),
        (WireFault::BadVersion, "a greeting of another version"),
        (WireFault::EarlyEnd, "the bytes end within a line"),
    ] {
        tells(&rt, rt.alloc(), fault, due);
    }
    let number = 8;
    let fault = LayoutFault { line: 0, number };
    expect_eq(&rt, fault.cause(), "no memory");
}
