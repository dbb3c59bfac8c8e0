//! The rule tells an opening that adds to a shelf's word from one that stores the word.

ghost use Rattle.tests_version.specs.PlainStore.{NoStoreOpens};

fn no_store_opens()
    ensures { NoStoreOpens }
{}

#[test]
fn a_store_would_forget_the_late() {
    no_store_opens();
}
