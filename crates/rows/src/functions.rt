//! Execution functions.
use crate::spread::cut;
use exec_functions::{Change, Function, Holdings, Note, Ran, exec, run};
use salt_value::{Event, Fields, Items, Value, Word};
use std::alloc::{AllocError, Global};
use value_json::{JsonFault, from_text, to_text};

/// The function of this name, and its word.
pub fn function(alloc: Global, rest: &str) -> Result<String, AllocError> {
    match Function::read(rest.as_bytes()) {
        Some(function) => function_text(alloc, function),
        None => String::from_str(alloc, "no function"),
    }
}

fn function_text(alloc: Global, function: Function) -> Result<String, AllocError> {
    let word = function.word(alloc)?;
    format!(in alloc; "{function:?}, {}", word.as_str())
}

/// What the function of a name makes of its arguments, a list as JSON, and of what is held, a map as JSON with the parts that are not empty.
pub fn run_row(alloc: Global, rest: &str) -> Result<String, AllocError> {
    match read(alloc, rest)? {
        Some(job) => run_text(alloc, &job),
        None => String::from_str(alloc, "no such row"),
    }
}

/// The same, and what is held then.
pub fn exec_row(alloc: Global, rest: &str) -> Result<String, AllocError> {
    match read(alloc, rest)? {
        Some(job) => exec_text(alloc, &job),
        None => String::from_str(alloc, "no such row"),
    }
}

// A function's name, its arguments, and what is held.
#[derive(Drop)]
struct Job {
    fun: Word,
    args: Items,
    held: Holdings,
}

fn read(alloc: Global, rest: &str) -> Result<Option<Job>, AllocError> {
    let (name, rest) = cut(rest);
    let (args, held) = cut(rest);
    let Ok(fun) = Word::read(alloc, name) else {
        return Ok(None);
    };
    let Some(args) = list(alloc, args)? else {
        return Ok(None);
    };
    let held = holdings(alloc, held)?;
    Ok(Some(Job { fun, args, held }))
}

fn value(alloc: Global, text: &str) -> Result<Option<Value>, AllocError> {
    match from_text(alloc, text) {
        Ok(value) => Ok(Some(value)),
        Err(JsonFault::NoMemory) => Err(AllocError),
        Err(_) => Ok(None),
    }
}

fn list(alloc: Global, text: &str) -> Result<Option<Items>, AllocError> {
    match value(alloc, text)? {
        Some(Value::List(items)) => Ok(Some(items)),
        _ => Ok(None),
    }
}

fn holdings(alloc: Global, text: &str) -> Result<Holdings, AllocError> {
    match value(alloc, text)? {
        Some(value) => parts(alloc, &value),
        None => parts(alloc, &Value::Null),
    }
}

fn parts(alloc: Global, value: &Value) -> Result<Holdings, AllocError> {
    Ok(Holdings {
        grains: part(alloc, value.at("grains"))?,
        pillar: part(alloc, value.at("pillar"))?,
        store: part(alloc, value.at("store"))?,
        mine: part(alloc, value.at("mine"))?,
    })
}

fn part(alloc: Global, found: Option<&Value>) -> Result<Fields, AllocError> {
    match found {
        Some(Value::Map(fields)) => fields.copy(alloc),
        _ => Ok(Fields::new(alloc)),
    }
}

fn run_text(alloc: Global, job: &Job) -> Result<String, AllocError> {
    let ran = run(alloc, &job.fun, job.args.as_slice(), &job.held)?;
    ran_text(alloc, &ran)
}

fn ran_text(alloc: Global, ran: &Ran) -> Result<String, AllocError> {
    let mut out = format!(in alloc; "{} ", ran.outcome.retcode)?;
    push_value(alloc, &mut out, &ran.outcome.value)?;
    push_change(alloc, &mut out, &ran.change)?;
    push_notes(alloc, &mut out, ran.notes.as_slice())?;
    Ok(out)
}

// Of a text of more than 80 bytes their number is told.
fn push_value(alloc: Global, out: &mut String, value: &Value) -> Result<(), AllocError> {
    let text = to_text(alloc, value)?;
    if text.as_str().len() > 80 {
        out.push_str(format!(in alloc; "{} bytes", text.as_str().len())?.as_str())
    } else {
        out.push_str(text.as_str())
    }
}

fn push_map(
    alloc: Global,
    out: &mut String,
    name: &str,
    fields: &Fields,
) -> Result<(), AllocError> {
    out.push_str(name)?;
    let map = Value::Map(fields.copy(alloc)?);
    push_value(alloc, out, &map)
}

fn push_change(alloc: Global, out: &mut String, change: &Change) -> Result<(), AllocError> {
    match change {
        Change::Nothing => Ok(()),
        Change::Grains(fields) => push_map(alloc, out, ", grains ", fields),
        Change::Store(fields) => push_map(alloc, out, ", store ", fields),
        Change::Mine(fields) => push_map(alloc, out, ", mine ", fields),
    }
}

fn push_notes(alloc: Global, out: &mut String, notes: &[Note]) -> Result<(), AllocError> {
    for note in notes {
        match note {
            Note::Mine => out.push_str(", note Mine")?,
            Note::Fired { event } => push_event(alloc, out, event)?,
        }
    }
    Ok(())
}

fn push_event(alloc: Global, out: &mut String, event: &Event) -> Result<(), AllocError> {
    out.push_str(", note Fired ")?;
    out.push_str(event.tag.as_str())?;
    out.push(' ')?;
    push_value(alloc, out, &event.body)
}

fn exec_text(alloc: Global, job: &Job) -> Result<String, AllocError> {
    let done = exec(alloc, &job.fun, job.args.as_slice(), &job.held)?;
    let mut out = format!(in alloc; "{} ", done.outcome.retcode)?;
    push_value(alloc, &mut out, &done.outcome.value)?;
    push_notes(alloc, &mut out, done.notes.as_slice())?;
    push_held(alloc, &mut out, &done.held)?;
    Ok(out)
}

fn push_held(alloc: Global, out: &mut String, held: &Holdings) -> Result<(), AllocError> {
    push_map(alloc, out, "; grains ", &held.grains)?;
    push_map(alloc, out, ", pillar ", &held.pillar)?;
    push_map(alloc, out, ", store ", &held.store)?;
    push_map(alloc, out, ", mine ", &held.mine)
}
