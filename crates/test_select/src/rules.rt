//! What the four rules of custom selection give.

use initial_select::{Custom, SelectRule, custom_name};
use std::test::Fail;

// The answer is this name; none stands for an event that isn't initial.
fn is(custom: &Custom, wanted: Option<&str>) -> bool {
    match (custom, wanted) {
        (Custom::Named(name), Some(wanted)) => name.as_slice() == wanted.as_bytes(),
        (Custom::NotInitial, None) => true,
        _ => false,
    }
}

#[test]
fn each_rule_gives_its_name(rt: HostRuntime) -> Result<(), Fail> {
    let alloc = rt.alloc();
    for (rule, input, wanted) in [
        (SelectRule::Whole, "tel:5551", Some("tel:5551")),
        (SelectRule::Whole, "", Some("")),
        (SelectRule::Digits3, "tel:5551", Some("555")),
        (SelectRule::Digits3, "7a/0:b9c4", Some("709")),
        (SelectRule::Digits3, "a4b", Some("4")),
        (SelectRule::Scheme, "tel:55:51", Some("tel")),
        (SelectRule::Scheme, ":x", Some("")),
        (SelectRule::Scheme, "5551", Some("5551")),
        (SelectRule::Screened, "anon:1", None),
        (SelectRule::Screened, "anon", Some("anon")),
        (SelectRule::Screened, "tel:anon:", Some("tel:anon:")),
    ] {
        let custom = custom_name(alloc, rule, input.as_bytes())?;
        assert!(rt; is(&custom, wanted));
    }
    Ok(())
}
