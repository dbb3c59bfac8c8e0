//! Why an order isn't taken, and a gate that lets everyone in.

use orders::{Gate, OpenGate, OrderFault, OrderRecord};

#[test]
fn faults_are_reported(rt: HostRuntime) {
    assert!(rt; OrderFault::UnknownFeed.number() == 114);
    assert!(rt; OrderFault::OrdersFull.name() == "OrdersFull");
    assert!(rt; OrderFault::OutOfMemory.number() == 116);
    let refused = OrderFault::LoadRefused { refusal: 1 };
    assert!(rt; refused.number() == 120 && refused.name() == "LoadRefused");
    assert!(rt; OrderFault::LoaderGone.number() == 121);
    let _order = OrderRecord::put("slow", Ok(()));
    let _other = OrderRecord::waited("slow", &Ok((2, "a notice")));
    OpenGate.enter();
    OpenGate.leave();
}
