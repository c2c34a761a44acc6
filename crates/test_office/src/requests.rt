//! What clients send, and what they are answered.

/// A SUBSCRIBE of a new framework.
pub const SUBSCRIBE: &str =
    "POST /api/v1/scheduler HTTP/1.1\r\nHost: 127.0.0.1\r\nContent-Type: application/json\r\nContent-Length: 75\r\n\r\n{\"type\":\"SUBSCRIBE\",\"subscribe\":{\"framework_info\":{\"user\":\"u\",\"name\":\"n\"}}}";

pub const REVIVE: &str =
    "POST /api/v1/scheduler HTTP/1.1\r\nContent-Type: application/json\r\nMesos-Stream-Id: S1-1\r\nContent-Length: 49\r\n\r\n{\"type\":\"REVIVE\",\"framework_id\":{\"value\":\"F1-1\"}}";

/// Launches task t1 of one cpu on offer O1-1.
pub const ACCEPT: &str =
    "POST /api/v1/scheduler HTTP/1.1\r\nContent-Type: application/json\r\nMesos-Stream-Id: S1-1\r\nContent-Length: 281\r\n\r\n{\"type\":\"ACCEPT\",\"framework_id\":{\"value\":\"F1-1\"},\"accept\":{\"offer_ids\":[{\"value\":\"O1-1\"}],\"operations\":[{\"type\":\"LAUNCH\",\"launch\":{\"task_infos\":[{\"name\":\"t\",\"task_id\":{\"value\":\"t1\"},\"agent_id\":{\"value\":\"a1\"},\"resources\":[{\"name\":\"cpus\",\"type\":\"SCALAR\",\"scalar\":{\"value\":1}}]}]}}]}}";

pub const RECONCILE: &str =
    "POST /api/v1/scheduler HTTP/1.1\r\nContent-Type: application/json\r\nMesos-Stream-Id: S1-1\r\nContent-Length: 103\r\n\r\n{\"type\":\"RECONCILE\",\"framework_id\":{\"value\":\"F1-1\"},\"reconcile\":{\"tasks\":[{\"task_id\":{\"value\":\"t1\"}}]}}";

pub const STREAM_HEAD: &str =
    "HTTP/1.1 200 OK\r\nContent-Type: application/json\r\nTransfer-Encoding: chunked\r\nMesos-Stream-Id: S1-1\r\n\r\n";

pub const SUBSCRIBED: &str =
    "68\r\n100\n{\"subscribed\":{\"framework_id\":{\"value\":\"F1-1\"},\"heartbeat_interval_seconds\":15},\"type\":\"SUBSCRIBED\"}\r\n";

/// Offer O1-1 of agent a1 whole.
pub const OFFERS: &str =
    "11d\r\n281\n{\"offers\":{\"offers\":[{\"agent_id\":{\"value\":\"a1\"},\"framework_id\":{\"value\":\"F1-1\"},\"hostname\":\"a1\",\"id\":{\"value\":\"O1-1\"},\"resources\":[{\"name\":\"cpus\",\"role\":\"*\",\"scalar\":{\"value\":4},\"type\":\"SCALAR\"},{\"name\":\"mem\",\"role\":\"*\",\"scalar\":{\"value\":4096},\"type\":\"SCALAR\"}]}]},\"type\":\"OFFERS\"}\r\n";

pub const STAGING: &str =
    "75\r\n113\n{\"type\":\"UPDATE\",\"update\":{\"status\":{\"agent_id\":{\"value\":\"a1\"},\"state\":\"TASK_STAGING\",\"task_id\":{\"value\":\"t1\"}}}}\r\n";

pub const LAST_CHUNK: &str = "0\r\n\r\n";

pub const ACCEPTED: &str = "HTTP/1.1 202 Accepted\r\nContent-Length: 0\r\n\r\n";

pub const MASTER_DOWN: &str =
    "HTTP/1.1 503 Service Unavailable\r\nContent-Type: text/plain\r\nContent-Length: 14\r\nConnection: close\r\n\r\nC2 MasterDown\n";

pub const HISTORY_FULL: &str =
    "HTTP/1.1 503 Service Unavailable\r\nContent-Type: text/plain\r\nContent-Length: 15\r\nConnection: close\r\n\r\nC6 HistoryFull\n";

pub const SEATS_SPENT: &str =
    "HTTP/1.1 503 Service Unavailable\r\nContent-Type: text/plain\r\nContent-Length: 14\r\nConnection: close\r\n\r\nO5 SeatsSpent\n";
