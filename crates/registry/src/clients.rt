ghost use Rattle.std.specs.Prelude.{◌≡◌, []};
ghost use Rattle.registry.specs.Places.{place_by};
ghost use Rattle.registry.specs.Clients.{client_refusal, clients_of, is_client, count_in, CountStands, admitted, clock_of, Crediting, Credit};

use crate::fixed_list::FixedList;
use leb128::field::NumberField;

/// A client and how many units it has inserted, which is its next clock.
#[derive(Clone, Copy)]
pub struct Client {
    pub number: u64,
    pub count: u32,
}

/// The clients that have inserted, in the order of their first insertion.
#[derive(Clone, Copy)]
pub struct Clients {
    clients: FixedList<Client, 16>,
}

/// Why a client may not insert.
#[derive(Clone, Copy, PartialEq, Eq, Debug)]
pub enum ClientRefusal {
    /// Its number is 2^53 or more.
    Large,
    /// It is new, and 16 have inserted.
    Full,
}

impl ClientRefusal {
    // A method, and no `From<ClientRefusal> for u8`: where it is called, `number()` says what the byte is, and `into()` would not.
    /// The refusal's number.
    pub fn number(self) -> u8
        ensures { result ≡ client_refusal self }
    {
        match self {
            ClientRefusal::Large => 4,
            ClientRefusal::Full => 5,
        }
    }
}

impl Clients {
    /// None has inserted.
    pub fn new() -> Clients
        ensures { clients_of result ≡ [] }
    {
        let nobody = Client {
            number: 0,
            count: 0,
        };
        Clients {
            clients: FixedList::new(nobody),
        }
    }

    /// Where a client stands, with its count; one that stands nowhere has inserted nothing.
    fn place_of(&self, client: u64) -> Option<usize>
        ensures place { result ≡ place_by (is_client client) (clients_of self.now) }
        ensures count { CountStands (clients_of self.now) result (count_in client (clients_of self.now)) }
    {
        let clients = self.clients.as_slice();
        clients.iter().position(|known| known.number == client)
    }

    /// How many units a client has inserted.
    pub fn count_of(&self, client: u64) -> u32
        ensures { result ≡ count_in client (clients_of self.now) }
    {
        let clients = self.clients.as_slice();
        self.place_of(client)
            .map_or(0, |place| clients[place].count)
    }

    /// Whether a client may insert: its number is judged first.
    pub fn admit(&self, client: u64) -> Result<(), ClientRefusal>
        ensures { result ≡ admitted client (clients_of self.now) }
    {
        if client >= NumberField::Client.limit() {
            return Err(ClientRefusal::Large);
        }
        if self.place_of(client).is_none() && self.clients.is_full() {
            return Err(ClientRefusal::Full);
        }
        Ok(())
    }

    /// Notes units that a client inserts, and tells the first of their clocks. It tells none, and changes nothing, where the
    /// client is new and 16 have inserted, or where its clocks would pass 32 bits.
    #[tactic(auto, using(crate::proofs::ClientLaws::order_kept, crate::proofs::ClientLaws::counts_kept))]
    pub fn credit(&mut self, client: u64, units: u32) -> Option<u32>
        ensures clock { result ≡ clock_of client units (clients_of self.old) }
        ensures clients { Crediting client units self.old self.new result }
        ensures law { Credit client units (clients_of self.old) }
    {
        let Some(place) = self.place_of(client) else {
            let new = Client {
                number: client,
                count: units,
            };
            self.clients.push(new)?;
            return Some(0);
        };
        let known = self.clients.as_slice()[place];
        let count = known.count.checked_add(units)?;
        self.clients.set(place, Client { count, ..known });
        Some(known.count)
    }
}
