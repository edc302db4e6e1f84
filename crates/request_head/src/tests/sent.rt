//! Heads as browsers and other programs send them, asked for the page at `http://127.0.0.1:8080/`,
//! and then for `times` by its script, or by hand: Chromium 156 and Firefox 153, without a window,
//! curl 7.88 and Wget 1.21, all of Debian 12.

/// Each, with its target.
pub const HEADS: [(&[u8], &[u8]); 8] = [
    (
        b"GET / HTTP/1.1\r\n\
          Host: 127.0.0.1:8080\r\n\
          Connection: keep-alive\r\n\
          sec-ch-ua: \"Not:A-Brand\";v=\"8\", \"Chromium\";v=\"156\"\r\n\
          sec-ch-ua-mobile: ?0\r\n\
          sec-ch-ua-platform: \"Linux\"\r\n\
          Upgrade-Insecure-Requests: 1\r\n\
          User-Agent: Mozilla/5.0 (X11; Linux x86_64) AppleWebKit/537.36 (KHTML, like Gecko) \
          HeadlessChrome/156.0.0.0 Safari/537.36\r\n\
          Accept: \
          text/html,application/xhtml+xml,application/xml;q=0.9,image/jxl,image/avif,image/webp,im\
          age/apng,*/*;q=0.8,application/signed-exchange;v=b3;q=0.7\r\n\
          Sec-Fetch-Site: none\r\n\
          Sec-Fetch-Mode: navigate\r\n\
          Sec-Fetch-User: ?1\r\n\
          Sec-Fetch-Dest: document\r\n\
          Accept-Encoding: gzip, deflate, br, zstd\r\n\
          Accept-Language: en-US,en;q=0.9\r\n\
          \r\n",
        b"/",
    ),
    (
        b"GET /times HTTP/1.1\r\n\
          Host: 127.0.0.1:8080\r\n\
          Connection: keep-alive\r\n\
          sec-ch-ua-platform: \"Linux\"\r\n\
          User-Agent: Mozilla/5.0 (X11; Linux x86_64) AppleWebKit/537.36 (KHTML, like Gecko) \
          HeadlessChrome/156.0.0.0 Safari/537.36\r\n\
          sec-ch-ua: \"Not:A-Brand\";v=\"8\", \"Chromium\";v=\"156\"\r\n\
          sec-ch-ua-mobile: ?0\r\n\
          Accept: */*\r\n\
          Sec-Fetch-Site: same-origin\r\n\
          Sec-Fetch-Mode: cors\r\n\
          Sec-Fetch-Dest: empty\r\n\
          Referer: http://127.0.0.1:8080/\r\n\
          Accept-Encoding: gzip, deflate, br, zstd\r\n\
          Accept-Language: en-US,en;q=0.9\r\n\
          \r\n",
        b"/times",
    ),
    (
        b"GET / HTTP/1.1\r\n\
          Host: 127.0.0.1:8080\r\n\
          User-Agent: Mozilla/5.0 (X11; Linux x86_64; rv:153.0) Gecko/20100101 Firefox/153.0\r\n\
          Accept: text/html,application/xhtml+xml,application/xml;q=0.9,*/*;q=0.8\r\n\
          Accept-Language: en-US,en;q=0.9\r\n\
          Accept-Encoding: gzip, deflate, br, zstd\r\n\
          Connection: keep-alive\r\n\
          Upgrade-Insecure-Requests: 1\r\n\
          Sec-Fetch-Dest: document\r\n\
          Sec-Fetch-Mode: navigate\r\n\
          Sec-Fetch-Site: none\r\n\
          Priority: u=0, i\r\n\
          \r\n",
        b"/",
    ),
    (
        b"GET /times HTTP/1.1\r\n\
          Host: 127.0.0.1:8080\r\n\
          User-Agent: Mozilla/5.0 (X11; Linux x86_64; rv:153.0) Gecko/20100101 Firefox/153.0\r\n\
          Accept: */*\r\n\
          Accept-Language: en-US,en;q=0.9\r\n\
          Accept-Encoding: gzip, deflate, br, zstd\r\n\
          Referer: http://127.0.0.1:8080/\r\n\
          Connection: keep-alive\r\n\
          Sec-Fetch-Dest: empty\r\n\
          Sec-Fetch-Mode: cors\r\n\
          Sec-Fetch-Site: same-origin\r\n\
          Priority: u=4\r\n\
          \r\n",
        b"/times",
    ),
    (
        b"GET / HTTP/1.1\r\n\
          Host: 127.0.0.1:8080\r\n\
          User-Agent: curl/7.88.1\r\n\
          Accept: */*\r\n\
          \r\n",
        b"/",
    ),
    (
        b"GET /times HTTP/1.1\r\n\
          Host: 127.0.0.1:8080\r\n\
          User-Agent: curl/7.88.1\r\n\
          Accept: */*\r\n\
          \r\n",
        b"/times",
    ),
    (
        b"GET / HTTP/1.1\r\n\
          Host: 127.0.0.1:8080\r\n\
          User-Agent: Wget/1.21.3\r\n\
          Accept: */*\r\n\
          Accept-Encoding: identity\r\n\
          Connection: Keep-Alive\r\n\
          \r\n",
        b"/",
    ),
    (
        b"GET /times HTTP/1.1\r\n\
          Host: 127.0.0.1:8080\r\n\
          User-Agent: Wget/1.21.3\r\n\
          Accept: */*\r\n\
          Accept-Encoding: identity\r\n\
          Connection: Keep-Alive\r\n\
          \r\n",
        b"/times",
    ),
];
