//! A deployment whose services select by all variables and rules.
ghost use Rattle.std.specs.Prelude.{◌≡◌, [], ◌∷◌};

use deploy_json::read_deployment;
use handler_check::Checked;
use slee_value::{Name, NoMemory, Payload, Text, Value};
use std::alloc::Global;

// The services, by their numbers.

pub const PLAIN: u32 = 0;

pub const ADDRESSED: u32 = 1;

pub const WHOLE: u32 = 2;

pub const DIGITS3: u32 = 3;

pub const SCHEME: u32 = 4;

pub const SCREENED: u32 = 5;

pub const FULL: u32 = 6;

pub const PINGED: u32 = 7;

// The blocks stand in another order than the services whose roots are of them.
const DEPLOYMENT: &str =
    r#"{"events":[{"key":"invite","name":"invite","vendor":"t","version":"1","fields":{"addr":"text"}},{"key":"ping","name":"ping","vendor":"t","version":"1"}],
"blocks":[{"key":"full","name":"full","vendor":"t","version":"1","events":[{"event":"invite","initial":["event","custom","activity","address","event-type"],"custom":{"rule":"digits3","field":"addr"},"on":""}]},
{"key":"screened","name":"screened","vendor":"t","version":"1","events":[{"event":"invite","initial":["custom"],"custom":{"rule":"screened","field":"addr"},"on":""}]},
{"key":"scheme","name":"scheme","vendor":"t","version":"1","events":[{"event":"invite","initial":["custom"],"custom":{"rule":"scheme","field":"addr"},"on":""}]},
{"key":"digits3","name":"digits3","vendor":"t","version":"1","events":[{"event":"invite","initial":["custom"],"custom":{"rule":"digits3","field":"addr"},"on":""}]},
{"key":"whole","name":"whole","vendor":"t","version":"1","events":[{"event":"invite","initial":["custom"],"custom":{"rule":"whole","field":"addr"},"on":""}]},
{"key":"addressed","name":"addressed","vendor":"t","version":"1","events":[{"event":"invite","initial":["address"],"on":""}]},
{"key":"plain","name":"plain","vendor":"t","version":"1","events":[{"event":"invite","initial":[],"on":""}]},
{"key":"pinged","name":"pinged","vendor":"t","version":"1","events":[{"event":"invite","on":""},{"event":"ping","initial":["activity"],"on":""}]}],
"services":[{"key":"s0","name":"s0","vendor":"t","version":"1","root":"plain","active":true},
{"key":"s1","name":"s1","vendor":"t","version":"1","root":"addressed","active":true},
{"key":"s2","name":"s2","vendor":"t","version":"1","root":"whole","active":true},
{"key":"s3","name":"s3","vendor":"t","version":"1","root":"digits3","active":true},
{"key":"s4","name":"s4","vendor":"t","version":"1","root":"scheme","active":true},
{"key":"s5","name":"s5","vendor":"t","version":"1","root":"screened","active":true},
{"key":"s6","name":"s6","vendor":"t","version":"1","root":"full","active":true},
{"key":"s7","name":"s7","vendor":"t","version":"1","root":"pinged","active":true}]}"#;

pub fn deployed(alloc: Global) -> Result<Checked, NoMemory> {
    match read_deployment(alloc, DEPLOYMENT.as_bytes()) {
        Ok(checked) => Ok(checked),
        Err(_) => Err(NoMemory),
    }
}

fn address(alloc: Global) -> Result<Name, NoMemory> {
    let bytes = "addr".as_bytes();
    if !Name::is_name(bytes) {
        return Err(NoMemory);
    }
    Name::from_slice(alloc, bytes)
}

// The field addr, or no field where there is no address.
pub fn fields(alloc: Global, text: &str) -> Result<Payload, NoMemory> {
    let mut fields = Payload::new(alloc);
    if text.is_empty() {
        return Ok(fields);
    }
    let value = Value::Text(Text::from_str(alloc, text)?);
    fields.push(address(alloc)?, value)?;
    Ok(fields)
}
