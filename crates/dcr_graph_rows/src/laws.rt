// The laws take nothing and answer nothing: that each can be called.
use dcr_laws::{a_run_is_done, l1, l2, l3, l4, l6, told_has_each_call};

#[test]
fn each_law_can_be_called() {
    l1();
    l2();
    l3();
    l4();
    l6();
    told_has_each_call();
    a_run_is_done();
}
