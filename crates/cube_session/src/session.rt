//! A session: the files are opened, and each command is carried out and its reply emitted.
ghost use Rattle.std.specs.Prelude.{◌≡◌, ◌↔◌, IsTrue, IfSome, None};
ghost use Rattle.cube_state.specs.Moves.{moves_made};
ghost use Rattle.cube_session.specs.Session.{Answers, IsGoing, Runs, Starts, moves_for, opened_held, unless_stopped};

use crate::held::Held;
use crate::machine::act;
use cube_state::{State, Stop};
use forest_root::Store;
use page_cache::Pages;
use roll_up::LevelList;
use script_lang::Command;
use site_core::{Fault, Site};
use std::alloc::Global;
use text_hash::Seed;

/// The warehouse between two commands of a script.
#[derive(Drop)]
pub struct Session {
    alloc: Global,
    seed: Seed,
    /// The pages that are kept between slices.
    pub pages: Pages,
    /// What it has, and nothing once it has stopped.
    pub held: Option<Held>,
}

impl Session {
    /// Opens the files, for a session that may keep so many pages between slices, and whose hashes of texts have this seed. Nothing is changed, also after an error; it never
    /// answers `Output`.
    ///
    /// `Damaged` comes exactly where the files break a rule of opening, and names the first one, unless a file fails or memory runs out before.
    pub fn start<T: Site>(
        alloc: Global,
        seed: Seed,
        site: &mut T,
        cache: u32,
    ) -> Result<Session, Stop>
        ensures { Starts T.Site cache site.old site.new result }
    {
        let pages = Pages::new(alloc, cache)?;
        match forest_open::open_store(alloc, seed, site) {
            Ok(found) => Ok(Session {
                alloc,
                seed,
                pages,
                held: Some(opened(alloc, found)),
            }),
            Err(stop) => Err(Stop::from(stop)),
        }
    }

    /// Whether a command has answered a `Stop`.
    pub fn stopped(&self) -> bool
        ensures { IsTrue result ↔ (self.now.held ≡ None) }
    {
        self.held.is_none()
    }

    /// How many moves of the pending batch were made: 0 where none is pending, behind its `begin`, and once the session has stopped.
    pub fn moves(&self) -> u64
        ensures { result ≡ moves_for self.now.held }
    {
        match &self.held {
            Some(held) => moves_of(&held.state),
            None => 0,
        }
    }

    /// Carries out a command and emits its reply. No rows are told of a page that is damaged, and no batch is acknowledged over a tree that
    /// is. Pages that slices read are kept, up to the capacity, until a batch is committed. After an error the session has stopped; the
    /// files keep what was known before the command or what is known behind it, and damage leaves the names and the live side as they were.
    pub fn command<T: Site>(&mut self, site: &mut T, command: Command) -> Result<(), Stop>
        requires { Runs T.Site site.old self.old.held self.old.pages }
        ensures answers { IfSome self.old.held (λ held. Answers T.Site command held self.new.held site.old site.new self.old.pages self.new.pages result) }
    {
        let Some(held) = &mut self.held else {
            unreachable!()
        };
        let answered = answer(self.alloc, self.seed, &mut self.pages, held, command, site);
        if answered.is_err() {
            self.held = None;
        }
        answered
    }
}

/// What a session has of files that were opened.
fn opened(alloc: Global, found: Option<Store>) -> Held
    ensures { result ≡ opened_held found }
{
    let state = match found {
        Some(store) => State::Idle(store),
        None => State::Empty,
    };
    Held {
        state,
        levels: LevelList::new(alloc),
    }
}

/// How many moves of the pending batch were made.
fn moves_of(state: &State) -> u64
    ensures { result ≡ moves_made state.now }
{
    match state {
        State::Pending(refresh) => refresh.taken(),
        _ => 0,
    }
}

/// Carries out a command and emits its reply.
fn answer<T: Site>(
    alloc: Global,
    seed: Seed,
    pages: &mut Pages,
    held: &mut Held,
    command: Command,
    site: &mut T,
) -> Result<(), Stop>
    requires { IsGoing T.Site site.old pages.old held.old }
    ensures answers { Answers T.Site command held.old (unless_stopped held.new result) site.old site.new pages.old pages.new result }
{
    match act(alloc, seed, pages, held, command, site) {
        Ok(reply) => match site.emit(&reply) {
            Ok(()) => Ok(()),
            Err(Fault) => Err(Stop::Output),
        },
        Err(stop) => Err(stop),
    }
}
