//! What the ends offer at the opening.
ghost use Rattle.std.specs.Prelude.{◌≡◌};
ghost use Rattle.seatmelon_account.specs.Offers.{AreOffers, AreVersions, IsOffer, sendmax_of, version_of};

use rasta_check::{SentList, SpanList, Store};
use rasta_pcap::Side;
use rasta_pdu::{Body, Params};

/// The N_sendmax that an end offers, where the parameters have another.
#[derive(Clone, Copy)]
pub struct Offer {
    pub end: Side,
    pub offered: u16,
    pub recorded: u16,
}

/// The versions that both ends offer, four digits each.
#[derive(Clone, Copy)]
pub struct Versions {
    pub client: [u8; 4],
    pub server: [u8; 4],
}

/// What the ends offer at the opening, where it differs from what is recorded or from what the other end offers.
#[derive(Clone, Copy)]
pub struct Offers {
    pub client: Option<Offer>,
    pub server: Option<Offer>,
    pub versions: Option<Versions>,
}

// The N_sendmax that an end offers.
fn sendmax_of(list: &SpanList<'_>) -> Option<u16>
    ensures { result ≡ sendmax_of list.now }
{
    let (_, pdu) = list.get(0)?;
    match pdu.body() {
        Body::Opening { sendmax, .. } => Some(sendmax),
        _ => None,
    }
}

// The version that an end offers.
fn version_of(list: &SpanList<'_>) -> Option<[u8; 4]>
    ensures { result ≡ version_of list.now }
{
    let (_, pdu) = list.get(0)?;
    match pdu.body() {
        Body::Opening { version, .. } => Some(version),
        _ => None,
    }
}

// The offer of an end, where it isn't what is recorded.
fn offer_of(recorded: u16, end: Side, list: &SpanList<'_>) -> Option<Offer>
    ensures { IsOffer recorded end list.now result }
{
    match sendmax_of(list) {
        Some(offered) if offered != recorded => Some(Offer {
            end,
            offered,
            recorded,
        }),
        _ => None,
    }
}

// The versions of both ends, where they differ.
fn versions_of(client: &SpanList<'_>, server: &SpanList<'_>) -> Option<Versions>
    ensures { AreVersions client.now server.now result }
{
    match (version_of(client), version_of(server)) {
        (Some(client), Some(server)) if client != server => Some(Versions { client, server }),
        _ => None,
    }
}

/// What the ends offer, of which these packets crossed.
pub fn offers_in(params: &Params, store: &Store) -> Offers
    ensures { AreOffers params.now.n_sendmax store.now result }
{
    let recorded = params.n_sendmax();
    let (client, server) = (store.client(), store.server());
    Offers {
        client: offer_of(recorded, Side::Client, &client),
        server: offer_of(recorded, Side::Server, &server),
        versions: versions_of(&client, &server),
    }
}
