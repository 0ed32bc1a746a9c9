//! Edges and falls as the tables have them.

/// Edges, each as its provider, the head, its waiter and the postcondition.
macro_rules! edges {
    ($(($provider:expr, $head:expr, $waiter:expr, $post:expr)),*) => {
        &[$(Edge { provider: $provider, head: $head, waiter: $waiter, post: $post }),*]
    };
}

/// Falls, each as its node and the reason.
macro_rules! falls {
    ($(($node:expr, $reason:expr)),*) => {
        &[$(Fall { node: $node, reason: $reason }),*]
    };
}

pub(crate) use edges;
pub(crate) use falls;
