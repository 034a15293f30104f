// RULES 8.2: the console's calls as C links them, each under the clauses of the call itself.
#![tactic(auto)]

ghost use Rattle.std.specs.Prelude.{◌≡◌};
ghost use Rattle.create_rules.specs.Create.{created, after_create};
ghost use Rattle.inspect_rules.specs.Inspect.{inspected};
ghost use Rattle.console_rules.specs.Console.{answered_number, emit_call};

#[unsafe(no_mangle)]
pub extern "C" fn lamipeonga_create(ring: &mut [u8], cpu_id: u16) -> u32
    ensures answer { result ≡ answered_number (created ring.old) }
    ensures bytes { ring.new ≡ after_create cpu_id ring.old }
{
    console::lamipeonga_create(ring, cpu_id)
}

#[unsafe(no_mangle)]
pub extern "C" fn lamipeonga_emit(
    ring: &mut [u8],
    record: &mut [u8],
    timestamp: u64,
    event_type: u32,
    origin_class: u8,
    payload: &[u8],
) -> u32
    ensures answer { result ≡ (emit_call ring.old «record».old timestamp event_type origin_class payload.now).answer }
    ensures bytes { ring.new ≡ (emit_call ring.old «record».old timestamp event_type origin_class payload.now).ring }
    ensures kept { «record».new ≡ (emit_call ring.old «record».old timestamp event_type origin_class payload.now).kept }
{
    console::lamipeonga_emit(ring, record, timestamp, event_type, origin_class, payload)
}

#[unsafe(no_mangle)]
pub extern "C" fn lamipeonga_inspect(ring: &[u8]) -> u32
    ensures { result ≡ answered_number (inspected ring.now) }
{
    console::lamipeonga_inspect(ring)
}
