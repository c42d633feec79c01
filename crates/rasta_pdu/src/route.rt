//! The ways over the channels of a connection.
ghost use Rattle.std.specs.Prelude.{◌≡◌};
ghost use Rattle.std.specs.List.{list_any};
ghost use Rattle.rasta_pdu.specs.Params.{are_distinct, routes, same_endpoint, same_route};

use rasta_udp::{Channel, Endpoint};

/// One way over a channel.
#[derive(Clone, Copy)]
pub struct Route {
    pub source: Endpoint,
    pub destination: Endpoint,
}

impl Route {
    fn of_client(channel: Channel) -> Route
        ensures { result ≡ record { source = channel.client; destination = channel.server } }
    {
        Route {
            source: channel.client,
            destination: channel.server,
        }
    }

    fn of_server(channel: Channel) -> Route
        ensures { result ≡ record { source = channel.server; destination = channel.client } }
    {
        Route {
            source: channel.server,
            destination: channel.client,
        }
    }

    fn is_same(self, other: Route) -> bool
        ensures { result ≡ same_route self other }
    {
        is_same_endpoint(self.source, other.source)
            && is_same_endpoint(self.destination, other.destination)
    }

    // Whether the route is one over these channels.
    fn is_among(self, channels: &[Channel]) -> bool
        ensures { result ≡ list_any (same_route self) (routes channels.now) }
    {
        match channels {
            [] => false,
            [first, rest @ ..] => {
                self.is_same(Route::of_client(*first))
                    || self.is_same(Route::of_server(*first))
                    || self.is_among(rest)
            }
        }
    }
}

fn is_same_endpoint(a: Endpoint, b: Endpoint) -> bool
    ensures { result ≡ same_endpoint a b }
{
    a.address == b.address && a.port == b.port
}

/// Whether no route over these channels stands there twice.
pub fn are_distinct_routes(channels: &[Channel]) -> bool
    ensures { result ≡ are_distinct (routes channels.now) }
{
    match channels {
        [] => true,
        [first, rest @ ..] => {
            let there = Route::of_client(*first);
            let back = Route::of_server(*first);
            !there.is_same(back)
                && !there.is_among(rest)
                && !back.is_among(rest)
                && are_distinct_routes(rest)
        }
    }
}
