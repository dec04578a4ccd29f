//! What stands around the sections of a page: made by bin/page-text.

/// From its first byte to the sections.
pub(crate) const PAGE_HEAD: &str = r#"<!doctype html>
<html lang="en">
<head>
<meta charset="utf-8">
<meta http-equiv="Content-Security-Policy" content="default-src 'none';
style-src 'sha256-bQEkVPX2zPuHPBmA8YkEXr/zUQmyRdbFfK35y2Y7ntc='
'sha256-VcpuRxpUdfFd+H7ZL+fwM70N+gI5sSgZ1pyYOGR4oL8=';
base-uri 'none'; form-action 'none'">
<meta name="referrer" content="no-referrer">
<meta name="viewport" content="width=device-width, initial-scale=1">
<title>The verdict on a history</title>
<style>body{margin:0;padding:16px 20px;background:#fff;color:#222;
font:14px/1.45 DejaVu Sans,Helvetica,Arial,sans-serif}
h1{font-size:18px;margin:0 0 4px}
header p{margin:0 0 12px;color:#5d6772}
section{border-top:1px solid #dde2e8;padding:12px 0 20px;overflow-x:auto}
pre{margin:0 0 8px;padding:8px 10px;background:#f4f6f9;border-left:4px solid #33598f;
font:12px/1.4 DejaVu Sans Mono,monospace;white-space:pre-wrap;overflow-wrap:anywhere}
p{margin:0 0 8px;white-space:pre-wrap;overflow-wrap:anywhere}
svg{display:block;max-width:100%;height:auto;margin:0 0 12px}
</style>
</head>
<body>
<header>
<h1>The verdict on a history</h1>
<p>The line of each verdict, why it is one, and of a no its pictures. A box has the line of a
transaction and its operations.</p>
</header>
"#;

/// From the sections to its end.
pub(crate) const PAGE_FOOT: &str = r#"</body>
</html>
"#;
