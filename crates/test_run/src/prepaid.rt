//! The prepaid service as it is deployed.

/// A call whose caller has credit in a table is told when the credit is used up.
pub const PREPAID: &str =
    r#"{"events":[{"key":"invite","name":"Invite","vendor":"demo","version":"1.0","fields":{"addr":"text"}}],
"profiles":[{"key":"account","name":"Account","vendor":"demo","version":"1.0","attributes":{"seconds":"int"}}],
"tables":{"accounts":"account"},
"blocks":[{"key":"call","name":"Call","vendor":"demo","version":"1.0","fields":{"who":"text"},"events":[
{"event":"invite","initial":["activity"],"on":["self.who = event.addr; emit \"call \" ++ event.addr;",
"if has_profile(accounts, event.addr) { let s = profile(accounts, event.addr, seconds);",
"usage granted s; timer t on activity at now + s * 1000; } else { emit \"no account\"; }"]},
{"event":"timer","on":"emit \"credit used by \" ++ self.who;"},
{"event":"activity-end","on":"emit \"over\";"}]}],
"services":[{"key":"prepaid","name":"Prepaid","vendor":"demo","version":"1.0","root":"call","active":true}]}"#;
