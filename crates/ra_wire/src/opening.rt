//! The beginning of a session: the server's greeting, the client's, the ways to say who one is, and the server's
//! welcome.

ghost use Rattle.std.specs.Prelude.{None};
ghost use Rattle.ra_wire.specs.Params.{left_of, Reads, Misses};
ghost use Rattle.ra_wire.specs.Prototypes.{IsGreeting, IsHello, AreMechanisms, IsLogin, IsWelcome, Judges};
ghost use Rattle.ra_wire.specs.Openings.{greeting_in, greeting_as, hello_in, hello_as, mechanisms_in, mechanisms_as};
ghost use Rattle.ra_wire.specs.Openings.{login_in, login_as, welcome_in, welcome_as};

use crate::fault::WireFault;
use crate::params::Params;
use ra_item::item::Item;
use std::alloc::Global;

/// What a server greets with: `( success ( minver maxver ( mech .. ) ( cap .. ) ) )`.
#[derive(Drop)]
pub struct Greeting {
    /// The least version that the server speaks.
    pub low: u64,
    /// The greatest.
    pub high: u64,
    /// Ways to say who one is; those that count come in [`Mechanisms`].
    pub mechanisms: Vec<Vec<u8>>,
    /// What the server can do.
    pub capabilities: Vec<Vec<u8>>,
}

/// What a client of version 2 answers to the greeting: `( 2 ( cap .. ) url .. )`.
#[derive(Drop)]
pub struct Hello {
    /// What the client can do.
    pub capabilities: Vec<Vec<u8>>,
    /// The URL that it asks for.
    pub url: Vec<u8>,
}

/// How a client may say who it is: `( success ( ( mech .. ) realm ) )`. Without a mechanism nothing is to be said.
#[derive(Drop)]
pub struct Mechanisms {
    pub names: Vec<Vec<u8>>,
    pub realm: Vec<u8>,
}

/// How a client says who it is: `( mech ( token ) )` or `( mech ( ) )`.
#[derive(Drop)]
pub struct Login {
    pub mechanism: Vec<u8>,
    pub token: Option<Vec<u8>>,
}

/// The end of an opening: `( success ( uuid url ( cap .. ) ) )`.
#[derive(Drop)]
pub struct Welcome {
    pub identity: Vec<u8>,
    pub url: Vec<u8>,
    pub capabilities: Vec<Vec<u8>>,
}

impl Greeting {
    /// The greeting that an answer holds. `BadShape` (48) for another form, `OutOfMemory` (70).
    pub fn parse(alloc: Global, content: Params) -> Result<Greeting, WireFault>
        ensures read { Reads (greeting_in (left_of content)) greeting_as result }
        ensures none { Misses (greeting_in (left_of content)) result }
        ensures judged { Judges IsGreeting greeting_as (left_of content) result }
    {
        Greeting::read(alloc, content)
    }

    // The same, by what is read alone.
    fn read(alloc: Global, content: Params) -> Result<Greeting, WireFault>
        ensures read { Reads (greeting_in (left_of content)) greeting_as result }
        ensures none { Misses (greeting_in (left_of content)) result }
    {
        let mut content = content;
        let low = content.number()?;
        let high = content.number()?;
        let mechanisms = content.words(alloc)?;
        let capabilities = content.words(alloc)?;
        Ok(Greeting {
            low,
            high,
            mechanisms,
            capabilities,
        })
    }
}

impl Hello {
    /// The client's greeting that an item is. `BadShape` (48) for another form or another version than 2,
    /// `OutOfMemory` (70).
    pub fn parse(alloc: Global, item: Item) -> Result<Hello, WireFault>
        ensures read { Reads (hello_in item) hello_as result }
        ensures none { Misses (hello_in item) result }
        ensures judged { Judges IsHello hello_as item result }
    {
        Hello::read(alloc, item)
    }

    // The same, by what is read alone.
    fn read(alloc: Global, item: Item) -> Result<Hello, WireFault>
        ensures read { Reads (hello_in item) hello_as result }
        ensures none { Misses (hello_in item) result }
    {
        let mut parts = Params::of(item)?;
        let version = parts.number()?;
        let capabilities = parts.words(alloc)?;
        let url = parts.text()?;
        if version == 2 {
            Ok(Hello { capabilities, url })
        } else {
            Err(WireFault::BadShape)
        }
    }
}

impl Mechanisms {
    /// The mechanisms that an answer holds. `BadShape` (48) for another form, `OutOfMemory` (70).
    pub fn parse(alloc: Global, content: Params) -> Result<Mechanisms, WireFault>
        ensures read { Reads (mechanisms_in (left_of content)) mechanisms_as result }
        ensures none { Misses (mechanisms_in (left_of content)) result }
        ensures judged { Judges AreMechanisms mechanisms_as (left_of content) result }
    {
        Mechanisms::read(alloc, content)
    }

    // The same, by what is read alone.
    fn read(alloc: Global, content: Params) -> Result<Mechanisms, WireFault>
        ensures read { Reads (mechanisms_in (left_of content)) mechanisms_as result }
        ensures none { Misses (mechanisms_in (left_of content)) result }
    {
        let mut content = content;
        let names = content.words(alloc)?;
        let realm = content.text()?;
        Ok(Mechanisms { names, realm })
    }
}

impl Login {
    /// What an item says of who a client is. `BadShape` (48) for another form.
    pub fn parse(item: Item) -> Result<Login, WireFault>
        ensures read { Reads (login_in item) login_as result }
        ensures none { Misses (login_in item) result }
        ensures judged { Judges IsLogin login_as item result }
    {
        Login::read(item)
    }

    // The same, by what is read alone.
    fn read(item: Item) -> Result<Login, WireFault>
        ensures read { Reads (login_in item) login_as result }
        ensures none { Misses (login_in item) result }
    {
        let mut parts = Params::of(item)?;
        let mechanism = parts.word()?;
        let token = parts.maybe_text()?;
        Ok(Login { mechanism, token })
    }
}

impl Welcome {
    /// The welcome that an answer holds. `BadShape` (48) for another form, `OutOfMemory` (70).
    pub fn parse(alloc: Global, content: Params) -> Result<Welcome, WireFault>
        ensures read { Reads (welcome_in (left_of content)) welcome_as result }
        ensures none { Misses (welcome_in (left_of content)) result }
        ensures judged { Judges IsWelcome welcome_as (left_of content) result }
    {
        Welcome::read(alloc, content)
    }

    // The same, by what is read alone.
    fn read(alloc: Global, content: Params) -> Result<Welcome, WireFault>
        ensures read { Reads (welcome_in (left_of content)) welcome_as result }
        ensures none { Misses (welcome_in (left_of content)) result }
    {
        let mut content = content;
        let identity = content.text()?;
        let url = content.text()?;
        let capabilities = content.words(alloc)?;
        Ok(Welcome {
            identity,
            url,
            capabilities,
        })
    }
}
