ghost use Rattle.std.specs.Prelude.{◌≡◌};
ghost use Rattle.event_text.specs.Grammar.{or_else, unless_long};
ghost use Rattle.event_text.specs.Events.{task_after, deadline_arrival, fixed_arrival, request_of, release_of, finish_of, tick_of, other_event, deadline_event_of, fixed_event_of};

use crate::fault::TextFault;
use crate::form::Wanted;
use crate::read::{is_too_long, or_else, read_form};
use field_names::Name;
use fields::Word;
use keys::BandLevel;
use runs::Call;

fn read_request<D>(line: &[u8]) -> Result<Call<D>, TextFault>
    ensures { result ≡ request_of line.now }
{
    let form = [
        Wanted::Word(Name::Event, Word::Request),
        Wanted::Number(Name::Task),
        Wanted::Number(Name::Resource),
    ];
    let [_, task, resource] = read_form(line, form)?;
    Ok(Call::Request(task, resource))
}

// The task that a line names after one word.
fn read_task(line: &[u8], word: Word) -> Result<u32, TextFault>
    ensures { result ≡ task_after word line.now }
{
    let form = [Wanted::Word(Name::Event, word), Wanted::Number(Name::Task)];
    let [_, task] = read_form(line, form)?;
    Ok(task)
}

// The two events differ in their word and their call; what they share is `read_task`.
fn read_release<D>(line: &[u8]) -> Result<Call<D>, TextFault>
    ensures { result ≡ release_of line.now }
{
    let task = read_task(line, Word::Release)?;
    Ok(Call::Release(task))
}

fn read_finish<D>(line: &[u8]) -> Result<Call<D>, TextFault>
    ensures { result ≡ finish_of line.now }
{
    let task = read_task(line, Word::Finish)?;
    Ok(Call::Finish(task))
}

fn read_tick<D>(line: &[u8]) -> Result<Call<D>, TextFault>
    ensures { result ≡ tick_of line.now }
{
    read_form(line, [Wanted::Word(Name::Event, Word::Tick)])?;
    Ok(Call::Tick)
}

// The events that both kinds of key have.
fn read_other<D: Copy>(line: &[u8]) -> Result<Call<D>, TextFault>
    ensures { result ≡ other_event line.now }
{
    or_else(read_request(line), || {
        or_else(
            read_release(line),
            || or_else(read_finish(line), || read_tick(line)),
        )
    })
}

// A line too long is refused as such; an arrival comes first, then the other events.
fn read_event<D: Copy>(
    line: &[u8],
    arrival: Result<Call<D>, TextFault>,
) -> Result<Call<D>, TextFault>
    ensures { result ≡ unless_long line.now (or_else arrival (other_event line.now)) }
{
    if is_too_long(line) {
        return Err(TextFault::TooLong);
    }
    or_else(arrival, || read_other(line))
}

// Two kinds of key have two forms of arrival.
fn deadline_arrival(line: &[u8]) -> Result<Call<u32>, TextFault>
    ensures { result ≡ deadline_arrival line.now }
{
    let form = [
        Wanted::Word(Name::Event, Word::Arrive),
        Wanted::Number(Name::Task),
        Wanted::Number(Name::Due),
    ];
    let [_, task, due] = read_form(line, form)?;
    Ok(Call::Arrive(task, due))
}

fn fixed_arrival(line: &[u8]) -> Result<Call<BandLevel>, TextFault>
    ensures { result ≡ fixed_arrival line.now }
{
    let form = [
        Wanted::Word(Name::Event, Word::Arrive),
        Wanted::Number(Name::Task),
        Wanted::Number(Name::Band),
        Wanted::Number(Name::Level),
    ];
    let [_, task, band, level] = read_form(line, form)?;
    Ok(Call::Arrive(task, BandLevel { band, level }))
}

// The event that a line writes for a kernel with deadline keys, or why not. The
// two readers differ in the form of their arrival; what they share is `read_event`.
pub fn read_deadline_event(line: &[u8]) -> Result<Call<u32>, TextFault>
    ensures { result ≡ deadline_event_of line.now }
{
    read_event(line, deadline_arrival(line))
}

// The event that a line writes for a kernel with fixed keys, or why not.
pub fn read_fixed_event(line: &[u8]) -> Result<Call<BandLevel>, TextFault>
    ensures { result ≡ fixed_event_of line.now }
{
    read_event(line, fixed_arrival(line))
}
