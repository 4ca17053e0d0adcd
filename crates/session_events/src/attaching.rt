//! Clients that attach, and their sizes; windows that open, and what their programs print.

ghost use Rattle.std.specs.Prelude.{◌≡◌, false, OnErr};
ghost use Rattle.std.specs.Option.{option_map};
ghost use Rattle.session_model.specs.Tables.{Tables, Window};
ghost use Rattle.session_model.specs.Naming.{lowest};
ghost use Rattle.session_model.specs.Deeds.{acting, entering};
ghost use Rattle.session_model.specs.Comings.{is_client_size};
ghost use Rattle.session_state.specs.Stands.{Stands};
ghost use Rattle.session_state.specs.Doing.{HasDone, IsAsBefore, IsWhole, HasRoom, HasRoomToAct, HasRoomToLeave};
ghost use Rattle.session_events.specs.Events.{IsOpenIn, Attaches, Resizes, Opens, serial_from, Outputs};

use acl::{Act, Bit, Object, UserId};
use session_model::{Bytes, Effect, Refusal, SERIALS, WindowsFault};
use session_state::{NewClient, State, StepOutput, WindowSize, is_client_size};
use windows::is_window_size;

/// The next serial, unless all of them are given out.
fn serial_from(next: u64) -> Option<u32>
    ensures { result ≡ serial_from next }
{
    if next < SERIALS {
        Some(next as u32)
    } else {
        None
    }
}

/// The window with the lowest number.
fn first_window(state: &State) -> Option<u32>
    ensures { (t : Tables) → Stands t state.now
        → result ≡ option_map (λ (w : Window). w.serial) (lowest t.windows) }
{
    match state.windows.lowest() {
        Some(window) => Some(window.serial),
        None => None,
    }
}

/// A user enters the window that they see, if they see one.
fn enter(state: &mut State, user: UserId, window: Option<u32>, made: &mut StepOutput)
    requires { HasRoom 255 made.old }
    ensures done { (t : Tables) → Stands t state.old → IsOpenIn t.acts window
        → HasDone t (acting t (entering user window)) state.new made.old made.new }
    ensures room { HasRoom 254 made.new }
{
    let Some(window) = window else {
        return;
    };
    made.acts.push(Act::Entered { user, window }).unwrap();
    let may_write = state
        .acl
        .may(user, Bit::Write, Object::Window(window))
        .is_ok();
    state.locks.entered(user, window, may_write);
}

/// Attaches a client, whose checks have passed, and gives it the next serial. Its one region shows
/// the window with the lowest number, which its user enters.
pub fn attach(
    state: &mut State,
    user: UserId,
    rows: u16,
    columns: u16,
    made: &mut StepOutput,
) -> Result<u32, Refusal>
    requires { HasRoomToAct made.old }
    ensures answer { Attaches user rows columns state.old result state.new made.old made.new }
    ensures whole { IsWhole result state.old state.new made.old made.new }
{
    if !is_client_size(rows, columns) {
        return Err(Refusal::BadSize);
    }
    let Some(client) = serial_from(state.next_client) else {
        return Err(Refusal::TooManyClients);
    };
    let window = first_window(state);
    let attaching = NewClient {
        serial: client,
        user,
        rows,
        columns,
        window,
    };
    state.clients.attach(state.alloc, attaching)?;
    state.next_client += 1;
    made.acts.push(Act::Attached { client, user }).unwrap();
    enter(state, user, window, made);
    Ok(client)
}

/// Gives a client's terminal a size, whose check has passed. Nothing changes if it has that size
/// already.
pub fn resize(state: &mut State, client: u32, rows: u16, columns: u16, made: &mut StepOutput)
    requires { HasRoomToAct made.old }
    ensures answer { Resizes client rows columns state.old state.new made.old made.new }
    ensures kept { is_client_size rows columns ≡ false
        → IsAsBefore state.old state.new made.old made.new }
    ensures room { HasRoomToLeave made.new }
{
    if !is_client_size(rows, columns) {
        return;
    }
    state.clients.resize(client, rows, columns);
}

/// Opens a window for a user, whose checks have passed. It gets the next serial and the lowest free
/// number, which are returned.
pub fn open(
    state: &mut State,
    user: UserId,
    size: WindowSize,
    title: &str,
    made: &mut StepOutput,
) -> Result<(u32, u8), Refusal>
    requires { HasRoomToAct made.old }
    ensures answer { Opens user size.rows size.columns size.keep title.now
        state.old result state.new made.old made.new }
    ensures whole { IsWhole result state.old state.new made.old made.new }
{
    let Some(window) = serial_from(state.next_window) else {
        return Err(Refusal::Windows(WindowsFault::Full));
    };
    if !is_window_size(size.rows, size.columns, size.keep) {
        return Err(Refusal::BadSize);
    }
    let number = state.windows.open(state.alloc, window, size, title)?;
    state.next_window += 1;
    made.acts.push(Act::Opened { by: user, window }).unwrap();
    state.acl.window_opened(user, window);
    state.locks.opened(user, window);
    Ok((window, number))
}

/// The program of an open window writes: the window's terminal reads the bytes, and what it answers is
/// input for the program.
pub fn output(
    state: &mut State,
    window: u32,
    bytes: &[u8],
    made: &mut StepOutput,
) -> Result<(), Refusal>
    ensures answer { Outputs window bytes.now state.old result state.new made.old made.new }
    ensures err { OnErr result (IsAsBefore state.old state.new made.old made.new) }
{
    made.effects.reserve(1)?;
    let mut reports = Vec::new(state.alloc);
    state.windows.feed_all(window, bytes, &mut reports)?;
    let input = Bytes::from_vec(reports);
    if input.is_empty() {
        return Ok(());
    }
    made.effects.push(Effect::Input(window, input)).unwrap();
    Ok(())
}
