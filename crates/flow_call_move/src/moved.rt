//! A case goes on under other texts: its entries are made again by names, in a folder that then takes its place.

use crate::plan::{Renames, new_names, renames_in};
use crate::retold::retell;
use crate::said::{There, say_moved, say_same, say_unmoved};
use crate::texts::{NewTexts, has_texts, new_texts};
use clap::ArgMatches;
use flow_call::{DISK, NO_MEMORY, WORDS};
use flow_call_cases::{
    AskerWords, FileCase, asker_in, opened, say_begin, say_folder, say_policy, say_stop, wait_in,
};
use flow_case::CaseRun;
use flow_case_begin::{Begun, CaseStop, begin};
use flow_case_book::Asker;
use flow_case_files::{
    MOST_MOVES, finish_move, is_cut_off, make_moving, moving_folder, put_in_place, take_away,
};
use flow_case_talk::Book;
use flow_move::{Cause, NewNames, Rename, Unmoved, make_again};
use std::alloc::AllocError;
use std::fs::{self, File};
use std::rt::{Env, Files};
use std::time::{Clock, Duration};

/// What is asked for.
#[derive(Clone, Copy)]
struct Call<'a> {
    case: &'a str,
    workflow: Option<&'a str>,
    policy: Option<&'a str>,
    json: bool,
    asker: &'a AskerWords,
    renames: &'a [Rename],
}

/// Says why no case can be made of the new texts, and gives the status.
fn say_no_case(
    rt: &(impl AllocGlobal + Eprint),
    call: &Call<'_>,
    texts: &NewTexts,
    stop: CaseStop,
) -> u8 {
    match (stop, texts.lent().policy) {
        (CaseStop::Policy(refusal), Some(policy)) => {
            if call.policy.is_none() {
                let _ = eprintln!(rt; "{}: --policy FILE gives a new policy", call.case);
            }
            say_policy(
                rt,
                call.policy.unwrap_or("policy"),
                texts.before,
                policy,
                &refusal,
            )
        }
        (stop, _) => say_stop(rt, call.workflow.unwrap_or(call.case), stop),
    }
}

/// Makes the entries in the new case, and notes there that it was moved.
fn tell_all<'x, R: Files<File = File> + AllocGlobal + Print + Eprint>(
    rt: &R,
    call: &Call<'_>,
    old: &FileCase<'x, R>,
    new: &mut FileCase<'x, R>,
    moved: There<'_>,
) -> u8 {
    if let Err(place) = retell(old, new, moved.core.history()) {
        return say_unmoved(rt, old, moved, place, Cause::Forbidden, call.json);
    }
    let Ok(seal) = old.seal(rt.alloc()) else {
        return NO_MEMORY;
    };
    let asker = Asker {
        name: call.asker.name.as_str(),
        at: call.asker.at.as_str(),
        note: "",
    };
    match new.tell_move(&seal, asker) {
        Ok(()) => 0,
        Err(_) => {
            let _ = eprintln!(rt; "{}: a file could not be written", call.case);
            DISK
        }
    }
}

/// Fills the folder in which the move is prepared, and gives the status.
fn fill<'x, R: Files<File = File> + Clock + AllocGlobal + Print + Eprint>(
    rt: &'x R,
    call: &Call<'_>,
    old: &FileCase<'x, R>,
    moving: &str,
    moved: There<'_>,
) -> u8 {
    match opened(rt, moving, Duration::from_secs(0), "") {
        Ok(mut new) => {
            let status = tell_all(rt, call, old, &mut new, moved);
            drop(new);
            status
        }
        Err(status) => status,
    }
}

/// Why the folder of a case cannot be put in the place of another.
fn unmovable<R: Files<File = File> + AllocGlobal>(
    rt: &R,
    case: &str,
) -> Result<Option<&'static str>, AllocError> {
    match fs::symlink_metadata(rt, case) {
        Ok(found) if found.is_dir() => {}
        _ => return Ok(Some("it is a link: name the folder itself")),
    }
    if fs::symlink_metadata(rt, &format!(in rt.alloc(); "{case}/before-{MOST_MOVES}")?).is_ok() {
        return Ok(Some("it was moved too often"));
    }
    if fs::symlink_metadata(rt, &moving_folder(rt.alloc(), case)?).is_ok() {
        return Ok(Some(
            "there is a folder of that name with .moving behind it: where a move was cut off, remove it",
        ));
    }
    Ok(None)
}

/// Moves the case, which has all entries under the new texts, and gives the status. Nothing that is there is taken away.
fn move_checked<'x, R: Files<File = File> + Clock + AllocGlobal + Print + Eprint>(
    rt: &'x R,
    call: &Call<'_>,
    old: &FileCase<'x, R>,
    texts: &NewTexts,
    moved: There<'_>,
) -> u8 {
    match unmovable(rt, call.case) {
        Ok(None) => move_made(rt, call, old, texts, moved),
        Ok(Some(why)) => {
            let _ = eprintln!(rt; "{}: {why}", call.case);
            DISK
        }
        Err(AllocError) => NO_MEMORY,
    }
}

/// Makes the folder of the moved case, puts it in the place of the old one, and gives the status.
fn move_made<'x, R: Files<File = File> + Clock + AllocGlobal + Print + Eprint>(
    rt: &'x R,
    call: &Call<'_>,
    old: &FileCase<'x, R>,
    texts: &NewTexts,
    moved: There<'_>,
) -> u8 {
    let lent = texts.lent();
    let moving = match make_moving(rt, call.case, lent.workflow, lent.policy, old.is_tidied()) {
        Ok(moving) => moving,
        Err(fault) => return say_folder(rt, call.case, fault),
    };
    let status = fill(rt, call, old, &moving, moved);
    if status != 0 {
        let _ = take_away(rt, &moving);
        return status;
    }
    match put_in_place(rt, call.case) {
        Ok(()) => say_moved(rt, call.case, moved.core.history().len(), call.json),
        Err(fault) => say_folder(rt, call.case, fault),
    }
}

/// Makes the entries of the case again by these names, and moves it, or says why not.
fn move_named<'x, R: Files<File = File> + Clock + AllocGlobal + Print + Eprint>(
    rt: &'x R,
    call: &Call<'_>,
    old: &FileCase<'x, R>,
    texts: &NewTexts,
    names: &NewNames,
    run: &mut CaseRun,
) -> u8 {
    let made = make_again(rt.alloc(), names, old.core().history(), run);
    let there = There {
        alloc: rt.alloc(),
        core: run.core(),
        names,
    };
    match made {
        Ok(()) => move_checked(rt, call, old, texts, there),
        Err(Unmoved::Entry { place, cause }) => {
            say_unmoved(rt, old, there, place, cause, call.json)
        }
        Err(Unmoved::NoMemory) => NO_MEMORY,
    }
}

/// Moves the case to that one, which has no entry yet, or says why not.
fn move_begun<'x, R: Files<File = File> + Clock + AllocGlobal + Print + Eprint>(
    rt: &'x R,
    call: &Call<'_>,
    old: &FileCase<'x, R>,
    texts: &NewTexts,
    begun: &mut Begun,
) -> u8 {
    let names = new_names(rt.alloc(), old, begun.users.as_ref(), call.renames);
    match names {
        Ok(names) => {
            let status = move_named(rt, call, old, texts, &names, &mut begun.run);
            drop(names);
            status
        }
        Err(AllocError) => NO_MEMORY,
    }
}

/// Moves the case that is open, or says why not.
fn move_open<'x, R: Files<File = File> + Clock + AllocGlobal + Print + Eprint>(
    rt: &'x R,
    call: &Call<'_>,
    old: &FileCase<'x, R>,
) -> u8 {
    let texts = match new_texts(rt, call.workflow, call.policy, old) {
        Ok(texts) => texts,
        Err(status) => return status,
    };
    if has_texts(old, &texts) {
        return say_same(rt, call.json);
    }
    match begin(rt.alloc(), texts.lent()) {
        Ok(begun) => {
            let mut begun = begun;
            let status = move_begun(rt, call, old, &texts, &mut begun);
            drop(begun);
            status
        }
        Err(stop) => say_no_case(rt, call, &texts, stop),
    }
}

/// Finishes a move that was cut off, and gives the status.
fn finish<R: Files<File = File> + AllocGlobal + Eprint>(rt: &R, case: &str) -> u8 {
    match finish_move(rt, case) {
        Ok(()) => {
            let _ = eprintln!(rt; "{case}: the move that was cut off is finished");
            0
        }
        Err(fault) => say_folder(rt, case, fault),
    }
}

/// Opens the case, moves it, and says what may be begun.
fn move_called<R: Files<File = File> + Clock + AllocGlobal + Print + Eprint>(
    rt: &R,
    call: &Call<'_>,
    wait: Duration,
) -> u8 {
    let status = match opened(rt, call.case, wait, &call.asker.at) {
        Ok(old) => {
            let status = move_open(rt, call, &old);
            drop(old);
            status
        }
        Err(status) => status,
    };
    if status != 0 || call.json {
        return status;
    }
    match opened(rt, call.case, wait, &call.asker.at) {
        Ok(mut book) => {
            let status = say_begin(rt, &mut book);
            drop(book);
            status
        }
        Err(status) => status,
    }
}

/// Moves a case, with what the words rename.
fn move_renamed<R: Files<File = File> + Env + Clock + AllocGlobal + Print + Eprint>(
    rt: &R,
    words: &ArgMatches<'_>,
    case: &str,
    renames: &[Rename],
) -> u8 {
    let Ok(asker) = asker_in(rt, words) else {
        return NO_MEMORY;
    };
    let call = Call {
        case,
        workflow: words.get_str("workflow"),
        policy: words.get_str("policy"),
        json: words.get_flag("json"),
        asker: &asker,
        renames,
    };
    move_called(rt, &call, wait_in(words))
}

/// A case goes on under other texts. A move that was cut off is finished, and then nothing else is done.
pub fn move_case<R: Files<File = File> + Env + Clock + AllocGlobal + Print + Eprint>(
    rt: &R,
    words: &ArgMatches<'_>,
) -> u8 {
    let case = words.get_str("case").unwrap_or("").trim_end_matches('/');
    match is_cut_off(rt, case) {
        Ok(true) => return finish(rt, case),
        Ok(false) => {}
        Err(AllocError) => return NO_MEMORY,
    }
    if words.get_str("workflow").is_none() && words.get_str("policy").is_none() {
        let _ = eprintln!(rt; "flowdesk: move wants --workflow FILE or --policy FILE");
        return WORDS;
    }
    match renames_in(rt.alloc(), words.get_strs("rename").unwrap_or(&[])) {
        Ok(Renames::Read(renames)) => move_renamed(rt, words, case, &renames),
        Ok(Renames::Bad(word)) => {
            let _ = eprintln!(rt; "flowdesk: --rename wants OLD=NEW, and not {word}");
            WORDS
        }
        Err(AllocError) => NO_MEMORY,
    }
}
