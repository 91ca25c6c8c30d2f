//! The client of `jup_embed` for C. The header `c/jup.h` declares these functions and says what each does.
#![tactic(auto)]

mod handle;

ghost use Rattle.std.specs.Prelude.{◌≡◌, ◌≢◌, ◌≤◌, ◌↔◌, [], length, take, IsTrue, IfSome, IsNone, None, Ok, Some, ℕ};
ghost use Rattle.jup_client.specs.declared.asking.Request.TheVariants.{Sync, Quit};
ghost use Rattle.jup_client.specs.declared.client.Told.TheVariants.{Synced, Bye as SaidBye};
ghost use Rattle.jup_embed.specs.Numbers.{closed};
ghost use Rattle.jup_reconnect.specs.AnyClients.{session_of, with_session, FeedsAny, Waits, MovesAny, EditsAny, DoesAny, CutsAny, ResumesAny, elapsed_any, IsSilentAny};
ghost use Rattle.jup_lasting.specs.declared.terms.Terms.{Terms};
ghost use Rattle.jup_c.specs.Handles.{Inside, Shown, Tells, IsFresh, IsFreshLink, stage_inside, fault_inside, changes_inside, site_inside, terms_inside, arrived_inside, known_answer};

pub use handle::JupClient;
use jup_embed::{
    CLOSED, Client, EmbedFault, NO_STAGE, PlainChange, PlainCommand, PlainWidget, copy_bytes,
    copy_label, copy_text, widget_view, window_view,
};
use jup_reconnect::{AnyClient, LastingClient};
use jup_window::EditFault;
use std::alloc::Global;

/// Opens a client of one connection, in the place of the client that was there. Where `watch` is not 0, the changes of its board are kept
/// until they are asked for.
#[unsafe(no_mangle)]
pub extern "C" fn jup_open(alloc: Global, client: &mut JupClient, watch: u32) -> u32
    ensures opened { result ≡ 0 → IsFresh client.new.inside }
    ensures watched { result ≡ 0 → Shown (λ c. IsTrue (session_of c).watched ↔ (watch ≢ 0)) ⊥ client.new.inside }
    ensures refused { result ≢ 0 → client.new.inside ≡ None }
{
    drop(client.take(alloc));
    let Ok(opened) = Client::new(alloc, watch != 0) else {
        return EmbedFault::NoMemory.number();
    };
    hold(alloc, client, AnyClient::Single(opened))
}

/// Opens a client of a link that outlives its connections, in the place of the client that was there. Where `watch` is not 0, the changes
/// of its board are kept until they are asked for.
#[unsafe(no_mangle)]
pub extern "C" fn jup_open_lasting(alloc: Global, client: &mut JupClient, watch: u32) -> u32
    ensures opened { result ≡ 0 → IsFreshLink client.new.inside }
    ensures watched { result ≡ 0 → Shown (λ c. IsTrue (session_of c).watched ↔ (watch ≢ 0)) ⊥ client.new.inside }
    ensures refused { result ≢ 0 → client.new.inside ≡ None }
{
    drop(client.take(alloc));
    let Ok(opened) = LastingClient::new(alloc, watch != 0) else {
        return EmbedFault::NoMemory.number();
    };
    hold(alloc, client, AnyClient::Lasting(opened))
}

// Puts a client into a handle that has none.
fn hold(alloc: Global, client: &mut JupClient, opened: AnyClient) -> u32
    requires { client.old.inside ≡ None }
    ensures held { result ≡ 0 → client.new.inside ≡ Some opened }
    ensures refused { result ≢ 0 → client.new.inside ≡ None }
{
    match Box::new(alloc, opened) {
        Ok(opened) => {
            client.put(opened);
            0
        }
        Err(_) => EmbedFault::NoMemory.number(),
    }
}

/// Frees a client, if there is one.
#[unsafe(no_mangle)]
pub extern "C" fn jup_close(alloc: Global, client: &mut JupClient)
    ensures { client.new.inside ≡ None }
{
    drop(client.take(alloc));
}

/// How far the session is, and the number of its fault where it is over.
#[tactic(auto, using(crate::proofs::Calls::stage_known, crate::proofs::Calls::fault_known))]
#[unsafe(no_mangle)]
pub extern "C" fn jup_stage(alloc: Global, client: &mut JupClient, fault: &mut u32) -> u32
    ensures stage { result ≡ stage_inside client.old.inside }
    ensures fault { fault.new ≡ fault_inside client.old.inside }
    ensures same { client.new.inside ≡ client.old.inside }
{
    let Some(held) = client.take(alloc) else {
        *fault = 0;
        return NO_STAGE;
    };
    let stage = held.as_ref().session().stage();
    client.put(held);
    *fault = stage.fault_number();
    stage.number()
}

/// Takes bytes that the server sent. A fault ends the session.
#[tactic(auto, using(crate::proofs::Calls::made_inside, crate::proofs::Calls::none_inside))]
#[unsafe(no_mangle)]
pub extern "C" fn jup_feed(alloc: Global, client: &mut JupClient, bytes: &[u8]) -> u32
    ensures { Inside (FeedsAny bytes.now result) (result ≡ closed) client.old.inside client.new.inside }
{
    let Some(mut held) = client.take(alloc) else {
        return CLOSED;
    };
    let outcome = held.as_mut().feed(alloc, bytes);
    client.put(held);
    outcome
}

/// How many bytes wait to be sent.
#[tactic(auto, using(crate::proofs::Calls::shown_inside, crate::proofs::Calls::none_shown))]
#[unsafe(no_mangle)]
pub extern "C" fn jup_waiting(alloc: Global, client: &mut JupClient) -> usize
    ensures count { Shown (Waits result) (result ≡ 0) client.old.inside }
    ensures same { client.new.inside ≡ client.old.inside }
{
    let Some(held) = client.take(alloc) else {
        return 0;
    };
    let waiting = held.as_ref().waiting();
    client.put(held);
    waiting
}

/// Moves bytes out that wait to be sent, the oldest first, and returns how many.
#[tactic(auto, using(crate::proofs::Calls::made_inside, crate::proofs::Calls::none_inside))]
#[unsafe(no_mangle)]
pub extern "C" fn jup_take(alloc: Global, client: &mut JupClient, to: &mut [u8]) -> usize
    ensures fits { result ≤ length to.old }
    ensures moved { Inside (MovesAny result (length to.old) (take result to.new)) (result ≡ 0) client.old.inside client.new.inside }
    ensures long { length to.new ≡ length to.old }
{
    let Some(mut held) = client.take(alloc) else {
        return 0;
    };
    let count = held.as_mut().move_out(alloc, to);
    client.put(held);
    count
}

/// Makes one edit of 1 to 32 commands. A refusal changes nothing.
#[tactic(auto, using(crate::proofs::Calls::made_inside, crate::proofs::Calls::over_inside, crate::proofs::Calls::none_over))]
#[unsafe(no_mangle)]
pub extern "C" fn jup_edit(alloc: Global, client: &mut JupClient, commands: &[PlainCommand]) -> u32
    ensures made { result ≡ 0 → Inside (EditsAny commands.now) ⊥ client.old.inside client.new.inside }
    ensures refused { result ≢ 0 → client.new.inside ≡ client.old.inside }
    ensures nobody { client.old.inside ≡ None → result ≡ closed }
    ensures over { fault_inside client.old.inside ≢ 0 → result ≡ fault_inside client.old.inside }
{
    let Some(mut held) = client.take(alloc) else {
        return CLOSED;
    };
    let outcome = held.as_mut().edit(alloc, commands);
    client.put(held);
    outcome
}

/// Asks the server for all that it has.
#[tactic(auto, using(crate::proofs::Calls::made_inside))]
#[unsafe(no_mangle)]
pub extern "C" fn jup_ping(alloc: Global, client: &mut JupClient) -> u32
    ensures pinged { result ≡ 0 → Inside (DoesAny Sync Synced) ⊥ client.old.inside client.new.inside }
    ensures refused { result ≢ 0 → client.new.inside ≡ client.old.inside }
    ensures nobody { client.old.inside ≡ None → result ≡ closed }
{
    let Some(mut held) = client.take(alloc) else {
        return CLOSED;
    };
    let asked = held.as_mut().ping(alloc);
    client.put(held);
    asked
}

/// Whether the server has answered the last ping: 1, or 0.
#[tactic(auto, using(crate::proofs::Calls::shown_inside, crate::proofs::Calls::none_shown))]
#[unsafe(no_mangle)]
pub extern "C" fn jup_is_synced(alloc: Global, client: &mut JupClient) -> u32
    ensures synced { Shown (λ c. (result ≡ 1) ↔ IsTrue (session_of c).synced) (result ≡ 0) client.old.inside }
    ensures same { client.new.inside ≡ client.old.inside }
{
    let Some(held) = client.take(alloc) else {
        return 0;
    };
    let is_synced = held.as_ref().session().is_synced();
    client.put(held);
    u32::from(is_synced)
}

/// Says goodbye.
#[tactic(auto, using(crate::proofs::Calls::made_inside))]
#[unsafe(no_mangle)]
pub extern "C" fn jup_bye(alloc: Global, client: &mut JupClient) -> u32
    ensures said { result ≡ 0 → Inside (DoesAny Quit SaidBye) ⊥ client.old.inside client.new.inside }
    ensures refused { result ≢ 0 → client.new.inside ≡ client.old.inside }
    ensures nobody { client.old.inside ≡ None → result ≡ closed }
{
    let Some(mut held) = client.take(alloc) else {
        return CLOSED;
    };
    let said = held.as_mut().bye(alloc);
    client.put(held);
    said
}

/// Does what a line asks for, as the program `jup` takes it. What that prints is copied as far as there is room, and `told` is its
/// whole length.
#[tactic(auto, using(crate::proofs::Calls::made_inside, crate::proofs::Calls::none_inside))]
#[unsafe(no_mangle)]
pub extern "C" fn jup_ask(
    alloc: Global,
    client: &mut JupClient,
    line: &[u8],
    to: &mut [u8],
    told: &mut usize,
) -> u32
    ensures rest { Inside (λ c d. d ≡ with_session (session_of d) c) (result ≡ closed) client.old.inside client.new.inside }
    ensures long { length to.new ≡ length to.old }
    ensures refused { result ≢ 0 → (told.new ≡ 0) × (to.new ≡ to.old) }
{
    *told = 0;
    let Some(mut held) = client.take(alloc) else {
        return CLOSED;
    };
    let asked = held.as_mut().ask(alloc, line);
    client.put(held);
    match asked {
        Ok(text) => {
            *told = text.len();
            copy_bytes(text.as_slice(), to);
            0
        }
        Err(fault) => fault,
    }
}

/// The oldest change that was not told: 1, or 0 where there is none.
#[tactic(auto, using(crate::proofs::Calls::tells_inside, crate::proofs::Calls::nothing_inside))]
#[unsafe(no_mangle)]
pub extern "C" fn jup_next_change(
    alloc: Global,
    client: &mut JupClient,
    out: &mut PlainChange,
) -> u32
    ensures told { result ≡ 1 → Inside (Tells out.new) ⊥ client.old.inside client.new.inside }
    ensures none { result ≢ 1 → changes_inside client.old.inside ≡ [] }
    ensures same { result ≢ 1 → client.new.inside ≡ client.old.inside }
    ensures left { result ≢ 1 → out.new ≡ out.old }
{
    let Some(mut held) = client.take(alloc) else {
        return 0;
    };
    let change = held.as_mut().next_change();
    client.put(held);
    match change {
        Some(op) => {
            *out = PlainChange::of(&op);
            1
        }
        None => 0,
    }
}

/// The number of the client's site, and how many of its edits the server has not acknowledged.
#[tactic(auto, using(crate::proofs::Calls::site_known))]
#[unsafe(no_mangle)]
pub extern "C" fn jup_site(
    alloc: Global,
    client: &mut JupClient,
    number: &mut u32,
    backlog: &mut u32,
) -> u32
    ensures known { IfSome (site_inside client.old.inside) (λ site. (result ≡ 0) × (number.new ≡ site.0) × (backlog.new ≡ site.1)) }
    ensures none { site_inside client.old.inside ≡ None → result ≢ 0 }
    ensures refused { result ≢ 0 → (number.new ≡ number.old) × (backlog.new ≡ backlog.old) }
    ensures same { client.new.inside ≡ client.old.inside }
{
    let Some(held) = client.take(alloc) else {
        return CLOSED;
    };
    let site = held.as_ref().session().site();
    client.put(held);
    match site {
        Some((name, count)) => {
            *number = name;
            *backlog = count;
            0
        }
        None => EmbedFault::NotOpen.number(),
    }
}

/// The id of the window at an index, and how many widgets it has.
#[unsafe(no_mangle)]
pub extern "C" fn jup_window(
    alloc: Global,
    client: &mut JupClient,
    index: usize,
    win: &mut u16,
    widgets: &mut usize,
) -> u32
    ensures refused { result ≢ 0 → (win.new ≡ win.old) × (widgets.new ≡ widgets.old) }
    ensures same { client.new.inside ≡ client.old.inside }
{
    let Some(held) = client.take(alloc) else {
        return CLOSED;
    };
    let view = match held.as_ref().session().board() {
        Some(board) => window_view(board, index),
        None => None,
    };
    client.put(held);
    match view {
        Some((id, count)) => {
            *win = id;
            *widgets = count;
            0
        }
        None => EditFault::NoWindow.number(),
    }
}

/// The widget at an index of the window at an index.
#[unsafe(no_mangle)]
pub extern "C" fn jup_widget_at(
    alloc: Global,
    client: &mut JupClient,
    window: usize,
    index: usize,
    out: &mut PlainWidget,
) -> u32
    ensures refused { result ≢ 0 → out.new ≡ out.old }
    ensures same { client.new.inside ≡ client.old.inside }
{
    let Some(held) = client.take(alloc) else {
        return CLOSED;
    };
    let view = match held.as_ref().session().board() {
        Some(board) => widget_view(board, window, index),
        None => None,
    };
    client.put(held);
    match view {
        Some(view) => {
            *out = PlainWidget::of(&view);
            0
        }
        None => EditFault::NoWidget.number(),
    }
}

/// Copies characters of a text from a place on.
#[unsafe(no_mangle)]
pub extern "C" fn jup_text(
    alloc: Global,
    client: &mut JupClient,
    win: u16,
    wid: u16,
    place: u32,
    to: &mut [u32],
    copied: &mut usize,
) -> u32
    ensures long { length to.new ≡ length to.old }
    ensures refused { result ≢ 0 → (copied.new ≡ 0) × (to.new ≡ to.old) }
    ensures same { client.new.inside ≡ client.old.inside }
{
    *copied = 0;
    let Some(held) = client.take(alloc) else {
        return CLOSED;
    };
    let count = match held.as_ref().session().board() {
        Some(board) => copy_text(board, win, wid, place, to),
        None => None,
    };
    client.put(held);
    match count {
        Some(count) => {
            *copied = count;
            0
        }
        None => EditFault::NoWidget.number(),
    }
}

/// The label at a place of a list. It is copied as far as there is room, and `len` is its whole length.
#[unsafe(no_mangle)]
pub extern "C" fn jup_label(
    alloc: Global,
    client: &mut JupClient,
    win: u16,
    wid: u16,
    place: u32,
    to: &mut [u8],
    len: &mut usize,
) -> u32
    ensures long { length to.new ≡ length to.old }
    ensures refused { result ≢ 0 → (len.new ≡ 0) × (to.new ≡ to.old) }
    ensures same { client.new.inside ≡ client.old.inside }
{
    *len = 0;
    let Some(held) = client.take(alloc) else {
        return CLOSED;
    };
    let label = match held.as_ref().session().board() {
        Some(board) => copy_label(board, win, wid, place),
        None => None,
    };
    client.put(held);
    match label {
        Some(label) => {
            let text = label.bytes();
            *len = text.len();
            copy_bytes(text, to);
            0
        }
        None => EditFault::BadPlace.number(),
    }
}

/// The connection broke. What is edited waits for the next one.
#[tactic(auto, using(crate::proofs::Calls::made_inside, crate::proofs::Calls::none_inside))]
#[unsafe(no_mangle)]
pub extern "C" fn jup_cut(alloc: Global, client: &mut JupClient) -> u32
    ensures { Inside (CutsAny result) (result ≡ closed) client.old.inside client.new.inside }
{
    let Some(mut held) = client.take(alloc) else {
        return CLOSED;
    };
    let cut = held.as_mut().cut();
    client.put(held);
    cut
}

/// Asks a new connection to carry the link.
#[tactic(auto, using(crate::proofs::Calls::made_inside, crate::proofs::Calls::none_inside))]
#[unsafe(no_mangle)]
pub extern "C" fn jup_resume(alloc: Global, client: &mut JupClient) -> u32
    ensures { Inside (ResumesAny result) (result ≡ closed) client.old.inside client.new.inside }
{
    let Some(mut held) = client.take(alloc) else {
        return CLOSED;
    };
    let resumed = held.as_mut().resume(alloc);
    client.put(held);
    resumed
}

/// So many seconds have passed: 1 if nothing has come for 90, or 0.
#[tactic(auto, using(crate::proofs::Calls::made_inside, crate::proofs::Calls::none_inside, crate::proofs::Calls::shown_inside, crate::proofs::Calls::none_shown))]
#[unsafe(no_mangle)]
pub extern "C" fn jup_elapse(alloc: Global, client: &mut JupClient, seconds: u32) -> u32
    ensures elapsed { Inside (λ c d. d ≡ elapsed_any seconds c) (result ≡ 0) client.old.inside client.new.inside }
    ensures silent { Shown (λ c. (result ≡ 1) ↔ IsSilentAny c) (result ≡ 0) client.new.inside }
{
    let Some(mut held) = client.take(alloc) else {
        return 0;
    };
    let is_silent = held.as_mut().elapse(seconds);
    client.put(held);
    u32::from(is_silent)
}

/// The token of the link, copied as far as there is room. `seconds` is how long the link waits without a connection, and `kept` is 1 if what
/// the server confirms outlives it.
#[tactic(auto, using(crate::proofs::Calls::terms_known))]
#[unsafe(no_mangle)]
pub extern "C" fn jup_token(
    alloc: Global,
    client: &mut JupClient,
    to: &mut [u8],
    seconds: &mut u32,
    kept: &mut u32,
) -> u32
    ensures answer { result ≡ known_answer (terms_inside client.old.inside) }
    ensures known { (terms : Terms) → terms_inside client.old.inside ≡ Ok (Some terms) → (seconds.new ≡ terms.seconds) × (IsTrue terms.kept ↔ (kept.new ≡ 1)) }
    ensures refused { result ≢ 0 → (to.new ≡ to.old) × (seconds.new ≡ seconds.old) × (kept.new ≡ kept.old) }
    ensures long { length to.new ≡ length to.old }
    ensures same { client.new.inside ≡ client.old.inside }
{
    let Some(held) = client.take(alloc) else {
        return CLOSED;
    };
    let terms = held.as_ref().terms();
    client.put(held);
    match terms {
        Ok(Some(terms)) => {
            copy_bytes(terms.token.digits(), to);
            *seconds = terms.seconds;
            *kept = u32::from(terms.kept);
            0
        }
        Ok(None) => EmbedFault::NotOpen.number(),
        Err(fault) => fault,
    }
}

/// How many of the client's edits the server took, once it has said so as the link was over.
#[tactic(auto, using(crate::proofs::Calls::arrived_known))]
#[unsafe(no_mangle)]
pub extern "C" fn jup_arrived(alloc: Global, client: &mut JupClient, edits: &mut u32) -> u32
    ensures answer { result ≡ known_answer (arrived_inside client.old.inside) }
    ensures known { (count : ℕ) → arrived_inside client.old.inside ≡ Ok (Some count) → edits.new ≡ count }
    ensures refused { result ≢ 0 → edits.new ≡ edits.old }
    ensures same { client.new.inside ≡ client.old.inside }
{
    let Some(held) = client.take(alloc) else {
        return CLOSED;
    };
    let arrived = held.as_ref().arrived();
    client.put(held);
    match arrived {
        Ok(Some(count)) => {
            *edits = count;
            0
        }
        Ok(None) => EmbedFault::NotOpen.number(),
        Err(fault) => fault,
    }
}
